ghost use Rattle.std.specs.Prelude.{◌≡◌, pos, IfOk};
ghost use Rattle.sf_algebra.specs.Rings.{ones};
ghost use Rattle.sf_algebra.specs.Sums.{normal};
ghost use Rattle.sf_algebra.specs.Vectors.{place_cmp};
ghost use Rattle.sf_minimal.specs.Constants.{StandWithin, constants};

use sf_field::{Modulus, OutOfMemory};
use sf_matrix::{Term, Vector};
use std::alloc::Global;

/// The constant terms of quotients for so many rows, as a vector in which the last row comes first.
pub(crate) fn constants_of(
    alloc: Global,
    modulus: Modulus,
    rows: usize,
    quotients: &[Term],
) -> Result<Vector, OutOfMemory>
    requires within { StandWithin rows quotients.now }
    ensures constants { IfOk result (λ v. v ≡ record { degree = pos 0; terms = normal (place_cmp ones) modulus (constants rows quotients.now) }) }
{
    let mut terms = Vec::new(alloc);
    for term in quotients {
        if term.monomial.sum() == 0 {
            terms.push(Term {
                position: rows as u64 - 1 - term.position,
                ..*term
            })?;
        }
    }
    Vector::from_terms(alloc, modulus, 0, &terms)
}
