ghost use Rattle.std.specs.Prelude.{◌≡◌, ◌≤ℤ◌, IfOk, Result};
ghost use Rattle.sf_algebra.specs.Vectors.{IsVector};
ghost use Rattle.sf_matrix.specs.Meets.{Meets};
ghost use Rattle.sf_matrix.specs.Tables.{GREATEST_REDUCED_DEGREE};
ghost use Rattle.sf_genmor.specs.CoordinatePlans.{SpansRelationsModulo, TellsCoordinates, coordinates_plan};

use sf_matrix::{BaseFault, Bases, Matrix, Vector, look, reduced};
use std::alloc::Global;

/// The coordinates of a vector in `generators` modulo the span of `base`, or `None` exactly where the vector isn't in the span of
/// both: those that are reduced by `relations`, which span all relations of the generators modulo the span of `base`.
///
/// It looks at the generators with `base` behind them.
pub fn coordinates<B: Bases>(
    alloc: Global,
    v: &Vector,
    generators: &Matrix,
    base: &Matrix,
    relations: &Matrix,
    bases: &mut B,
) -> Result<Option<Vector>, BaseFault>
    requires ring { base.now.ring ≡ generators.now.ring }
    requires target { base.now.target ≡ generators.now.target }
    requires vector { IsVector generators.now.ring generators.now.target v.now }
    requires room { v.now.degree ≤ℤ GREATEST_REDUCED_DEGREE }
    requires relations { SpansRelationsModulo generators.now base.now relations.now }
    ensures meets { Meets (B.table bases.old) (coordinates_plan generators.now base.now v.now) result (B.table bases.new) }
    ensures tells { IfOk result (TellsCoordinates generators.now base.now relations.now v.now) }
{
    let stack = generators.stack(alloc, base)?;
    let entry = look(alloc, &stack, bases)?;
    let (rest, coefficients) = reduced(alloc, &stack, entry, v, bases)?;
    if rest.is_empty() {
        let end = generators.rows() as u64;
        Ok(Some(coefficients.part(alloc, 0, end)?))
    } else {
        Ok(None)
    }
}
