//! What holds of `==` at polynomials, as the contract of a function that does nothing.

ghost use Rattle.sf_algebra.specs.Equality.{DecidesEquality};

use crate::poly::Poly;

/// `==` of polynomials is true exactly where their moduli and their terms are equal.
pub fn equal_polynomials()
    ensures { DecidesEquality ⟦<Poly as PartialEq>⟧.eq }
{}
