mod multiples;

ghost use Rattle.std.specs.Prelude.{◌≤◌, length, IfOk, IfSome};
ghost use Rattle.sf_algebra.specs.Monomials.{VARIABLES};
ghost use Rattle.sf_algebra.specs.Rings.{ones};
ghost use Rattle.sf_variables.specs.Columns.{AreColumns};

use crate::columns::multiples::push_multiples;
use crate::place::Place;
use sf_field::OutOfMemory;
use sf_matrix::Free;
use sf_mono::Mono;
use std::alloc::Global;

/// The greatest sum of the exponents of a monomial.
const GREATEST_SUM: i64 = 65_535;

/// All places of a degree over the first `variables` variables, the greatest first, or `None` where there are more
/// than `most` or where the degree is more than 65,535 above that of a generator.
pub fn columns_of(
    alloc: Global,
    variables: usize,
    target: &Free,
    degree: i32,
    most: usize,
) -> Result<Option<Vec<Place>>, OutOfMemory>
    requires variables { variables ≤ VARIABLES }
    ensures columns { IfOk result (λ found. IfSome found (λ ks. AreColumns ones variables target.now.degrees degree ks.items)) }
    ensures few { IfOk result (λ found. IfSome found (λ ks. length ks.items ≤ most)) }
{
    let mut places = Vec::new(alloc);
    for (i, generator) in target.degrees.as_slice().iter().enumerate() {
        let above = degree as i64 - *generator as i64;
        if above > GREATEST_SUM {
            return Ok(None);
        }
        if above >= 0 {
            let from = Place {
                monomial: Mono::one(),
                position: i as u64,
            };
            if !push_multiples(&mut places, most, from, variables, above as u32)? {
                return Ok(None);
            }
        }
    }
    Ok(Some(places))
}

#[cfg(test)]
mod tests;
