ghost use Rattle.std.specs.Prelude.{◌≡◌, ◌<◌, ◌++◌, IfOk, OnOk};
ghost use Rattle.std.specs.List.{AllByRecursion};
ghost use Rattle.sf_algebra.specs.Bounds.{HasSmallSize};
ghost use Rattle.sf_algebra.specs.Matrices.{row_degrees};
ghost use Rattle.sf_algebra.specs.Terms.{Term};
ghost use Rattle.sf_algebra.specs.Vectors.{Place};
ghost use Rattle.sf_groebner.specs.GraphRows.{graph_matrix};
ghost use Rattle.sf_groebner.specs.Spans.{graph_degrees};
ghost use Rattle.sf_buchberger.specs.GraphBases.{with_unit};

use sf_field::{Copied, OutOfMemory};
use sf_matrix::{Free, List, Matrix, Vector};
use sf_mono::Mono;
use std::alloc::Global;

/// The rows that span the graph of a matrix: each of its rows with the unit vector of its position behind it.
pub(crate) fn graph_rows(alloc: Global, m: &Matrix) -> Result<Matrix, OutOfMemory>
    requires size { HasSmallSize m.now }
    ensures rows { IfOk result (λ rows. rows ≡ graph_matrix m.now) }
{
    m.modulus().facts();
    let mut graph = Matrix::new(alloc, m.modulus(), graph_degrees(alloc, m)?);
    for i in 0..m.rows() {
        graph.push_row(with_unit(alloc, m.row(i), (m.cols() + i) as u64)?)?;
    }
    Ok(graph)
}

/// A vector with a unit vector of its degree behind it, at a position behind those of its terms.
fn with_unit(alloc: Global, v: &Vector, position: u64) -> Result<Vector, OutOfMemory>
    requires behind { AllByRecursion (λ (t : Term Place). t.at.position < position) v.now.terms }
    ensures row { IfOk result (λ w. w ≡ with_unit position v.now) }
{
    let mut row = v.copy(alloc)?;
    row.push(position, Mono::one(), 1)?;
    Ok(row)
}

/// The free module of the graph: the target, and behind it the free module of the rows' degrees.
pub(crate) fn graph_degrees(alloc: Global, m: &Matrix) -> Result<Free, OutOfMemory>
    ensures degrees { IfOk result (λ f. f.degrees ≡ graph_degrees m.now) }
{
    let mut degrees = m.target().degrees.copy(alloc)?;
    push_row_degrees(m, &mut degrees)?;
    Ok(Free { degrees })
}

/// Adds the degrees of the rows at the end.
fn push_row_degrees(m: &Matrix, degrees: &mut List<i32>) -> Result<(), OutOfMemory>
    ensures ok { OnOk result (degrees.new ≡ degrees.old ++ row_degrees m.now) }
{
    for i in 0..m.rows() {
        degrees.push(m.row(i).degree())?;
    }
    Ok(())
}
