ghost use Rattle.std.specs.Prelude.{◌≡◌, IfOk};
ghost use Rattle.sf_algebra.specs.Rings.{plain};

use crate::generator::Generator;
use crate::outcome::Outcome;
use anyhow::{Context, Result, ensure};
use sf_field::Modulus;
use sf_mono::Mono;
use sf_poly::Poly;
use std::alloc::Global;

/// Multiplies two polynomials of 1,000 terms each, as many times as the rounds say.
pub fn multiply_polynomials(alloc: Global, modulus: Modulus, rounds: u32) -> Result<Outcome> {
    let mut numbers = Generator::from_seed(1);
    let left = random_polynomial(alloc, modulus, &mut numbers)?;
    let right = random_polynomial(alloc, modulus, &mut numbers)?;
    ensure!(left.product_fits(&right), "too great");
    let mut product = Poly::zero(alloc, modulus);
    for _ in 0..rounds.max(1) {
        product = left.mul(alloc, &right)?;
    }
    Ok(Outcome::of_polynomial(&product))
}

/// A polynomial with all exponents up to 9 of three variables.
fn random_polynomial(alloc: Global, modulus: Modulus, numbers: &mut Generator) -> Result<Poly>
    ensures ring { IfOk result (λ f. f.ring ≡ plain modulus) }
{
    let mut sum = Poly::zero(alloc, modulus);
    for k in 0..1000_u16 {
        let exponents = [k % 10, k / 10 % 10, k / 100, 0, 0, 0];
        let a = Mono::from_exponents(exponents).context("too great")?;
        let term = Poly::term(alloc, modulus, a, numbers.next_coefficient(modulus))?;
        sum = sum.add(alloc, &term)?;
    }
    Ok(sum)
}
