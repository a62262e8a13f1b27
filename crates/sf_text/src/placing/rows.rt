ghost use Rattle.std.specs.Prelude.{◌≡◌, ◌≤◌, length, Some, None, IfOk, IfErr, IsTrue};
ghost use Rattle.std.specs.List.{AllByRecursion, list_all};
ghost use Rattle.sf_algebra.specs.Vectors.{Vector};
ghost use Rattle.sf_text.specs.Placed.{IsWrittenTerm, relations_of, matrix_between, row_at, first_fault, has_shape, has_size, is_written_degree};

use super::row::{place_row, place_row_of_degree};
use crate::raw::RawTerm;
use crate::ring::Ring;
use sf_field::OutOfMemory;
use sf_matrix::{Free, List, Matrix};
use std::alloc::Global;

/// The matrix that the rows mean over the free module with these degrees, or the number of the
/// first row that isn't homogeneous, counted from 1.
pub fn place_rows(
    alloc: Global,
    ring: &Ring,
    degrees: List<i32>,
    rows: &[List<List<RawTerm>>],
) -> Result<Result<Matrix, u64>, OutOfMemory>
    requires few { length ring.now.names ≤ 6 }
    requires shaped { IsTrue (has_shape (length degrees) rows.now) }
    requires written { IsTrue (list_all is_written_degree degrees) }
    ensures placed { IfOk result (λ r. IfOk r (λ m. m ≡ relations_of ring.now degrees rows.now)) }
    ensures homogeneous { IfOk result (λ r. IfOk r (λ m. first_fault 1 degrees (relations_of ring.now degrees rows.now).rows ≡ None)) }
    ensures small { IfOk result (λ r. IfOk r (λ m. AllByRecursion (λ (v : Vector). AllByRecursion IsWrittenTerm v.terms) m.rows)) }
    ensures fault { IfOk result (λ r. IfErr r (λ i. first_fault 1 degrees (relations_of ring.now degrees rows.now).rows ≡ Some i)) }
{
    let mut relations = Matrix::new(alloc, ring.modulus, Free { degrees });
    for (index, row) in rows.iter().enumerate() {
        let degrees = relations.target().degrees.as_slice();
        match place_row(alloc, ring, degrees, row.as_slice())? {
            Some(vector) => relations.push_row(vector)?,
            None => return Ok(Err(index as u64 + 1)),
        }
    }
    Ok(Ok(relations))
}

/// The matrix that the rows mean from the free module with the first degrees to that with the second, or the number of the first
/// row that isn't homogeneous of its degree, counted from 1.
pub fn place_matrix(
    alloc: Global,
    ring: &Ring,
    source: &[i32],
    target: List<i32>,
    rows: &[List<List<RawTerm>>],
) -> Result<Result<Matrix, u64>, OutOfMemory>
    requires few { length ring.now.names ≤ 6 }
    requires sized { IsTrue (has_size (length source.now) (length target) rows.now) }
    requires written { IsTrue (list_all is_written_degree target) }
    ensures placed { IfOk result (λ r. IfOk r (λ m. m ≡ matrix_between ring.now source.now target rows.now)) }
    ensures homogeneous { IfOk result (λ r. IfOk r (λ m. first_fault 1 target (matrix_between ring.now source.now target rows.now).rows ≡ None)) }
    ensures fault { IfOk result (λ r. IfErr r (λ i. first_fault 1 target (matrix_between ring.now source.now target rows.now).rows ≡ Some i)) }
{
    let mut matrix = Matrix::new(alloc, ring.modulus, Free { degrees: target });
    for (index, degree) in source.iter().enumerate() {
        let degrees = matrix.target().degrees.as_slice();
        match place_row_of_degree(alloc, ring, degrees, *degree, entries_of(rows, index))? {
            Some(vector) => matrix.push_row(vector)?,
            None => return Ok(Err(1 + index as u64)),
        }
    }
    Ok(Ok(matrix))
}

/// The entries of the row with this number; where no row is written there are none.
fn entries_of(rows: &[List<List<RawTerm>>], index: usize) -> &[List<RawTerm>]
    ensures { result.now ≡ row_at rows.now index }
{
    match rows.get(index) {
        None => &[],
        Some(row) => row.as_slice(),
    }
}
