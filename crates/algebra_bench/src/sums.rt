ghost use Rattle.std.specs.Prelude.{◌≡◌, IfOk, pos};
ghost use Rattle.sf_algebra.specs.Rings.{ones};
ghost use Rattle.sf_algebra.specs.Terms.{IsCanonical};
ghost use Rattle.sf_algebra.specs.Vectors.{place_cmp};

use crate::generator::Generator;
use crate::outcome::Outcome;
use anyhow::{Context, Result};
use sf_field::Modulus;
use sf_matrix::{Term, Vector};
use sf_mono::Mono;
use std::alloc::Global;

/// Adds two vectors of 100,000 terms each, as many times as the rounds say.
///
/// About half of the places are those of both.
pub fn add_vectors(alloc: Global, modulus: Modulus, rounds: u32) -> Result<Outcome> {
    let mut numbers = Generator::from_seed(1);
    let left = random_vector(alloc, modulus, &mut numbers)?;
    let right = random_vector(alloc, modulus, &mut numbers)?;
    let mut sum = Vector::zero(alloc, 0);
    for _ in 0..rounds.max(1) {
        sum = left.add(alloc, modulus, &right)?;
    }
    Ok(Outcome::of_vector(&sum))
}

/// A vector of 100,000 terms: 1,000 at each of 100 generators, with exponents up to 9 of three variables and the
/// exponent 0 or 1 of a fourth one.
fn random_vector(alloc: Global, modulus: Modulus, numbers: &mut Generator) -> Result<Vector>
    ensures degree { IfOk result (λ v. v.degree ≡ pos 0) }
    ensures canonical { IfOk result (λ v. IsCanonical (place_cmp ones) modulus v.terms) }
{
    let mut terms = Vec::with_capacity(alloc, 100_000)?;
    for k in 0..100_000_u64 {
        let exponents = [
            (k % 10) as u16,
            (k / 10 % 10) as u16,
            (k / 100 % 10) as u16,
            (numbers.next_number() % 2) as u16,
            0,
            0,
        ];
        terms.push(Term {
            position: k / 1000,
            monomial: Mono::from_exponents(exponents).context("too great")?,
            coefficient: numbers.next_coefficient(modulus),
        })?;
    }
    Ok(Vector::from_terms(alloc, modulus, 0, &terms)?)
}
