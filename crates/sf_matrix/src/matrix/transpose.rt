ghost use Rattle.std.specs.Prelude.{◌≡◌, ◌<◌, ◌≤ℤ◌, ◌++◌, [], ◌∷◌, length, map, negsuc, neg_ℤ, IfOk, OnOk, OnErr};
ghost use Rattle.std.specs.List.{AllByRecursion};
ghost use Rattle.sf_algebra.specs.MatrixOperations.{transposed};
ghost use Rattle.sf_algebra.specs.Rings.{ones};
ghost use Rattle.sf_algebra.specs.Terms.{IsDescending};
ghost use Rattle.sf_algebra.specs.Vectors.{place_cmp};
ghost use Rattle.sf_matrix.specs.Bounds.{HasNegative};
ghost use Rattle.sf_matrix.specs.Columns.{entered, column_lists, vectors_of};

use crate::free::Free;
use crate::list::List;
use crate::matrix::Matrix;
use crate::vector::{Term, Vector};
use sf_field::OutOfMemory;
use std::alloc::Global;
use std::mem;

impl Matrix {
    /// The columns as rows; degrees change sign.
    ///
    /// No degree is -2,147,483,648, whose negative has no room.
    pub fn transpose(&self, alloc: Global) -> Result<Matrix, OutOfMemory>
        requires columns { AllByRecursion HasNegative self.now.target }
        requires rows { AllByRecursion (λ v. HasNegative v.degree) self.now.rows }
        ensures transposed { IfOk result (λ m. m ≡ transposed self.now) }
    {
        let degrees = self.target.degrees.as_slice();
        let columns = columns_of(alloc, degrees, &self.rows)?;
        let rows = rows_of(alloc, degrees, columns)?;
        Ok(Matrix {
            modulus: self.modulus,
            target: Free {
                degrees: negative_degrees(alloc, &self.rows)?,
            },
            rows,
        })
    }
}

/// The negatives of the rows' degrees.
fn negative_degrees(alloc: Global, rows: &[Vector]) -> Result<List<i32>, OutOfMemory>
    requires { AllByRecursion (λ v. HasNegative v.degree) rows.now }
    ensures { IfOk result (λ l. l ≡ map neg_ℤ (map (λ v. v.degree) rows.now)) }
{
    let mut degrees = List::new(alloc);
    for row in rows {
        degrees.push(negative_degree(row.degree))?;
    }
    Ok(degrees)
}

/// The columns of rows over a free module with these degrees. Each term is looked at once.
fn columns_of(
    alloc: Global,
    degrees: &[i32],
    rows: &[Vector],
) -> Result<Vec<List<Term>>, OutOfMemory>
    requires { AllByRecursion (λ v. AllByRecursion (λ t. t.at.position < length degrees.now) v.terms) rows.now }
    ensures { IfOk result (λ v. v.items ≡ column_lists rows.now 0 degrees.now) }
{
    let mut columns = empty_columns(alloc, degrees)?;
    for (i, row) in rows.iter().enumerate() {
        enter_row(&mut columns, i as u64, &row.terms)?;
    }
    Ok(columns)
}

/// As many columns without terms as there are degrees.
fn empty_columns(alloc: Global, degrees: &[i32]) -> Result<Vec<List<Term>>, OutOfMemory>
    ensures { IfOk result (λ v. v.items ≡ column_lists [] 0 degrees.now) }
{
    let mut columns = Vec::with_capacity(alloc, degrees.len())?;
    for _ in degrees {
        columns.push(List::new(alloc))?;
    }
    Ok(columns)
}

/// Enters the terms of row `i` into the columns at their positions.
fn enter_row(columns: &mut Vec<List<Term>>, i: u64, terms: &[Term]) -> Result<(), OutOfMemory>
    requires { AllByRecursion (λ t. t.at.position < length columns.old.items) terms.now }
    ensures ok { OnOk result (columns.new.items ≡ entered i terms.now 0 columns.old.items) }
{
    for term in terms {
        columns[term.position as usize].push(Term {
            position: i,
            ..*term
        })?;
    }
    Ok(())
}

/// The columns as vectors, of the negatives of their degrees.
fn rows_of(
    alloc: Global,
    degrees: &[i32],
    columns: Vec<List<Term>>,
) -> Result<Vec<Vector>, OutOfMemory>
    requires length { length columns.items ≡ length degrees.now }
    requires degrees { AllByRecursion HasNegative degrees.now }
    requires descending { AllByRecursion (IsDescending (place_cmp ones)) columns.items }
    requires nonzero { AllByRecursion (AllByRecursion (λ t. 0 < t.coefficient)) columns.items }
    ensures { IfOk result (λ v. v.items ≡ vectors_of degrees.now columns.items) }
{
    let mut columns = columns;
    let mut rows = Vec::with_capacity(alloc, columns.len())?;
    for (j, degree) in degrees.iter().enumerate() {
        let column = mem::replace(&mut columns[j], List::new(alloc));
        rows.push(Vector {
            degree: negative_degree(*degree),
            terms: column.into_vec(),
        })?;
    }
    Ok(rows)
}

/// The negative of a degree.
fn negative_degree(degree: i32) -> i32
    requires { HasNegative degree }
    ensures { result ≡ neg_ℤ degree }
{
    -degree
}
