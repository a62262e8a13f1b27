ghost use Rattle.std.specs.Prelude.{◌≡◌, ◌≤◌, length};
ghost use Rattle.std.specs.List.{AllByRecursion};
ghost use Rattle.sf_algebra.specs.Monomials.{exponent_sum};
ghost use Rattle.sf_text.specs.Placed.{GREATEST_WRITTEN_SUM, IsWrittenTerm, exponent_in, monomial_of, residue_of, placed_term};

use crate::raw::RawTerm;
use crate::ring::Ring;
use sf_field::Modulus;
use sf_matrix::{Name, Term};
use sf_mono::Mono;

/// A term at a column.
pub fn placed_term(ring: &Ring, column: u64, term: &RawTerm) -> Term
    requires few { length ring.now.names ≤ 6 }
    ensures term { result ≡ placed_term ring.now column term.now }
    ensures small { IsWrittenTerm result }
{
    Term {
        position: column,
        monomial: monomial_of(ring.names.as_slice(), term),
        coefficient: residue_of(ring.modulus, term),
    }
}

/// The residue of the coefficient with its sign.
fn residue_of(modulus: Modulus, term: &RawTerm) -> u32
    ensures { result ≡ residue_of modulus term.now }
{
    let residue = (term.coefficient % u64::from(modulus.value())) as u32;
    if term.minus {
        modulus.neg(residue)
    } else {
        residue
    }
}

/// The product of the factors.
fn monomial_of(names: &[Name], term: &RawTerm) -> Mono
    requires few { length names.now ≤ 6 }
    ensures monomial { result ≡ monomial_of names.now term.now.factors }
    ensures small { exponent_sum result ≤ GREATEST_WRITTEN_SUM }
{
    let factors = term.factors.as_slice();
    let mut exponents = [0; 6];
    for (place, name) in names.iter().enumerate() {
        exponents[place] = exponent_in(factors, name);
    }
    Mono::from_exponents(exponents).unwrap()
}

/// The sum of a variable's exponents.
fn exponent_in(factors: &[(Name, u16)], name: &Name) -> u16
    requires few { length factors.now ≤ 6 }
    requires small { AllByRecursion (λ f. f.1 ≤ 999) factors.now }
    ensures sum { result ≡ exponent_in factors.now name.now }
    ensures bounded { result ≤ 5994 }
{
    let mut sum = 0;
    for (other, exponent) in factors {
        if other == name {
            sum += *exponent;
        }
    }
    sum
}
