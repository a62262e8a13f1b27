ghost use Rattle.std.specs.Prelude.{◌≡◌, ◌+◌, ◌<◌, ◌≤◌, [], ◌∷◌, ◌++◌, length, IfOk, Some};
ghost use Rattle.std.specs.Bool.{OnTrue};
ghost use Rattle.sf_algebra.specs.Bounds.{GREATEST_SUM};
ghost use Rattle.sf_algebra.specs.Monomials.{VARIABLES, from_exponents, variable, exponent_sum};
ghost use Rattle.sf_algebra.specs.Multiples.{place_product};
ghost use Rattle.sf_dense.specs.PlaceLists.{multiples_of};

use crate::place::Place;
use sf_field::OutOfMemory;
use sf_mono::Mono;

/// The variable at place `i`, counted from 0.
fn variable(i: usize) -> Option<Mono>
    requires { i < VARIABLES }
    ensures { result ≡ Some (variable i) }
{
    let mut exponents = [0; 6];
    exponents[i] = 1;
    Mono::from_exponents(exponents)
}

/// Adds the multiple of a place by a power of the first variable, unless there are `most` places already. Says whether
/// it is added.
fn push_power(
    places: &mut Vec<Place>,
    most: usize,
    from: Place,
    degree: u32,
) -> Result<bool, OutOfMemory>
    requires { exponent_sum from.monomial + degree ≤ GREATEST_SUM }
    ensures all { let added = place_product (from_exponents (degree ∷ [])) from in
        IfOk result (λ all. OnTrue all (places.new.items ≡ places.old.items ++ added ∷ [])) }
    ensures few { IfOk result (λ all. OnTrue all (length places.new.items ≤ most)) }
{
    if places.len() >= most {
        return Ok(false);
    }
    let Some(power) = Mono::from_exponents([degree as u16, 0, 0, 0, 0, 0]) else {
        return Ok(false);
    };
    places.push(Place {
        monomial: power.mul(from.monomial),
        position: from.position,
    })?;
    Ok(true)
}

/// Adds the multiples of a place by all monomials of a degree over the first `variables` variables, the greatest
/// first, unless there would be more than `most` places. Says whether all of them are added.
pub fn push_multiples(
    places: &mut Vec<Place>,
    most: usize,
    from: Place,
    variables: usize,
    degree: u32,
) -> Result<bool, OutOfMemory>
    requires variables { variables ≤ VARIABLES }
    requires fits { exponent_sum from.monomial + degree ≤ GREATEST_SUM }
    requires few { length places.old.items ≤ most }
    ensures all { IfOk result (λ all. OnTrue all (places.new.items ≡ places.old.items ++ multiples_of from degree variables)) }
    ensures few { IfOk result (λ all. OnTrue all (length places.new.items ≤ most)) }
{
    if variables == 0 && degree > 0 {
        return Ok(true);
    }
    if variables < 2 {
        return push_power(places, most, from, degree);
    }
    let Some(last) = variable(variables - 1) else {
        return Ok(false);
    };
    let mut at = from;
    let mut rest = degree;
    while rest > 0 {
        if !push_multiples(places, most, at, variables - 1, rest)? {
            return Ok(false);
        }
        at = Place {
            monomial: last.mul(at.monomial),
            position: at.position,
        };
        rest -= 1;
    }
    push_power(places, most, at, 0)
}
