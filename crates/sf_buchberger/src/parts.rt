ghost use Rattle.std.specs.Prelude.{◌≡◌, [], ◌∷◌, ◌++◌, IfOk, OnOk};
ghost use Rattle.std.specs.List.{AllByRecursion};
ghost use Rattle.sf_algebra.specs.Bounds.{HasSmallSize};
ghost use Rattle.sf_algebra.specs.Vectors.{Vector, IsVector};
ghost use Rattle.sf_groebner.specs.Spans.{graph_degrees};
ghost use Rattle.sf_groebner.specs.BasisParts.{values_of, coefficients_of, syzygies_of};
ghost use Rattle.sf_buchberger.specs.GraphBases.{AreParts, HaveModules, with_rows};

use sf_field::{Copied, OutOfMemory};
use sf_matrix::{Graph, Matrix, Vector};
use std::alloc::Global;

/// The values, the coefficients and the syzygies of the rows of a matrix over the graph of `m`.
pub(crate) fn parts(alloc: Global, m: &Matrix, rows: &Matrix) -> Result<Graph, OutOfMemory>
    requires size { HasSmallSize m.now }
    requires vectors { AllByRecursion (IsVector m.now.ring (graph_degrees m.now)) rows.now.rows }
    ensures parts { IfOk result (λ g. AreParts m.now rows.now.rows g.basis g.coefficients g.syzygies) }
{
    let mut graph = Graph {
        basis: Matrix::new(alloc, m.modulus(), m.target().copy(alloc)?),
        coefficients: Matrix::new(alloc, m.modulus(), m.row_module(alloc)?),
        syzygies: Matrix::new(alloc, m.modulus(), m.row_module(alloc)?),
    };
    for i in 0..rows.rows() {
        push_parts(alloc, m, rows.row(i), &mut graph)?;
    }
    Ok(graph)
}

/// Adds the parts of one more vector of the graph: the value and its coefficients, or a syzygy where the value is 0.
fn push_parts(alloc: Global, m: &Matrix, row: &Vector, graph: &mut Graph) -> Result<(), OutOfMemory>
    requires size { HasSmallSize m.now }
    requires vector { IsVector m.now.ring (graph_degrees m.now) row.now }
    requires modules { HaveModules m.now graph.old.basis graph.old.coefficients graph.old.syzygies }
    ensures basis { OnOk result (graph.new.basis ≡ with_rows graph.old.basis (values_of m.now (row.now ∷ []))) }
    ensures coefficients { OnOk result
        (graph.new.coefficients ≡ with_rows graph.old.coefficients (coefficients_of m.now (row.now ∷ []))) }
    ensures syzygies { OnOk result
        (graph.new.syzygies ≡ with_rows graph.old.syzygies (syzygies_of m.now (row.now ∷ []))) }
{
    let columns = m.cols() as u64;
    let value = row.part(alloc, 0, columns)?;
    let coefficients = row.part(alloc, columns, columns + m.rows() as u64)?;
    if value.is_empty() {
        graph.syzygies.push_row(coefficients)?;
    } else {
        graph.basis.push_row(value)?;
        graph.coefficients.push_row(coefficients)?;
    }
    Ok(())
}
