ghost use Rattle.std.specs.Prelude.{◌≤ℤ◌, Result};
ghost use Rattle.sf_algebra.specs.Vectors.{IsVector};
ghost use Rattle.sf_matrix.specs.Meets.{Meets};
ghost use Rattle.sf_matrix.specs.Tables.{GREATEST_REDUCED_DEGREE};
ghost use Rattle.sf_session.specs.Tasks.{lift_plan, membership_plan};

use sf_matrix::{BaseFault, Bases, Matrix, Vector, look, reduced};
use std::alloc::Global;

/// Whether a vector is in the span of a matrix.
pub fn is_in_span<B: Bases>(
    alloc: Global,
    m: &Matrix,
    v: &Vector,
    bases: &mut B,
) -> Result<bool, BaseFault>
    requires vector { IsVector m.now.ring m.now.target v.now }
    requires room { v.now.degree ≤ℤ GREATEST_REDUCED_DEGREE }
    ensures { Meets (B.table bases.old) (membership_plan m.now v.now) result (B.table bases.new) }
{
    let entry = look(alloc, m, bases)?;
    let (rest, _coefficients) = reduced(alloc, m, entry, v, bases)?;
    Ok(rest.is_empty())
}

/// The lift of a vector over the rows of a matrix, or `None` exactly where it isn't in their span.
pub fn lift_of<B: Bases>(
    alloc: Global,
    m: &Matrix,
    v: &Vector,
    bases: &mut B,
) -> Result<Option<Vector>, BaseFault>
    requires vector { IsVector m.now.ring m.now.target v.now }
    requires room { v.now.degree ≤ℤ GREATEST_REDUCED_DEGREE }
    ensures { Meets (B.table bases.old) (lift_plan m.now v.now) result (B.table bases.new) }
{
    let entry = look(alloc, m, bases)?;
    let (rest, coefficients) = reduced(alloc, m, entry, v, bases)?;
    if rest.is_empty() {
        Ok(Some(coefficients))
    } else {
        Ok(None)
    }
}
