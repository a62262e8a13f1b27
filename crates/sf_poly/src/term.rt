ghost use Rattle.std.specs.Prelude.{◌≡◌, ◌+◌, ◌<◌, ◌≤◌};
ghost use Rattle.sf_algebra.specs.Bounds.{GREATEST_SUM};
ghost use Rattle.sf_algebra.specs.Monomials.{product, exponent_sum};
ghost use Rattle.sf_algebra.specs.Multiples.{term_product};

use sf_field::Modulus;
use sf_mono::Mono;
use std::marker::Model;

/// A coefficient, and the monomial at which it stands.
#[derive(Clone, Copy, Debug, PartialEq, Eq, Hash)]
pub struct Term {
    pub monomial: Mono,
    pub coefficient: u32,
}

impl Model for Term {
    ghost use Rattle.sf_algebra.specs.Monomials.{Monomial};
    ghost use Rattle.sf_algebra.specs.Terms.{Term};

    ghost Value = { Term Monomial };

    ghost view = { λ t. record { at = t.monomial; coefficient = t.coefficient } };

    ghost inverse = { λ t. record { monomial = t.at; coefficient = t.coefficient } };
}

impl Term {
    /// The product with another term.
    pub fn times(&self, modulus: Modulus, factor: &Term) -> Term
        requires room { exponent_sum factor.now.at + exponent_sum self.now.at ≤ GREATEST_SUM }
        requires residue { self.now.coefficient < modulus }
        requires factor { factor.now.coefficient < modulus }
        ensures { result ≡ term_product product modulus factor.now self.now }
    {
        Term {
            monomial: factor.monomial.mul(self.monomial),
            coefficient: modulus.mul(factor.coefficient, self.coefficient),
        }
    }
}
