ghost use Rattle.std.specs.Prelude.{◌≡◌, ◌<◌, ◌↔◌, [], ◌∷◌, ◌++◌, length, Some, OnOk, OnErr, IsTrue, slice_get};
ghost use Rattle.std.specs.declared.cmp.Ordering.TheVariants.{Less};
ghost use Rattle.std.specs.List.{AllByRecursion};
ghost use Rattle.sf_algebra.specs.Rings.{ones};
ghost use Rattle.sf_algebra.specs.Terms.{IsDescending};
ghost use Rattle.sf_algebra.specs.Vectors.{place_cmp};
ghost use Rattle.sf_matrix.specs.Places.{place_of, term_of};

mod arithmetic;
mod equality;

pub(crate) use arithmetic::negative_terms;
use sf_field::{Copied, OutOfMemory};
use sf_mono::Mono;
use std::alloc::Global;
use std::marker::Model;

/// A coefficient, and where it stands: at a generator, counted from 0, and a monomial.
///
/// The monomial is the first field, since a number of 128 bits begins at a multiple of 16 bytes: so a term takes 32.
#[derive(Clone, Copy, Debug, PartialEq, Eq, Hash)]
pub struct Term {
    pub monomial: Mono,
    pub position: u64,
    pub coefficient: u32,
}

impl Model for Term {
    ghost use Rattle.sf_algebra.specs.Terms.{Term};
    ghost use Rattle.sf_algebra.specs.Vectors.{Place};

    ghost Value = { Term Place };

    ghost view = { λ t. record { at = record { position = t.position; monomial = t.monomial }; coefficient = t.coefficient } };

    ghost inverse = { λ t. record { position = t.at.position; monomial = t.at.monomial; coefficient = t.coefficient } };
}

/// A vector of a free module that knows its degree even where it is zero. No coefficient is 0.
///
/// Contracts see it as the degree and the list of the terms, the greatest first: an earlier generator is greater, and
/// at one generator the monomials decide.
#[derive(Debug, Drop)]
pub struct Vector {
    pub(crate) degree: i32,
    pub(crate) terms: Vec<Term>,
}

impl Model for Vector {
    ghost use Rattle.std.specs.Prelude.{◌<◌};
    ghost use Rattle.std.specs.List.{AllByRecursion};
    ghost use Rattle.sf_algebra.specs.Rings.{ones};
    ghost use Rattle.sf_algebra.specs.Terms.{IsDescending};
    ghost use Rattle.sf_algebra.specs.Vectors.{Vector, place_cmp};

    ghost Value = { Vector };

    ghost view = { λ v. record { degree = v.degree; terms = v.terms.items } };

    ghost invariant = { λ v. IsDescending (place_cmp ones) v.terms.items × AllByRecursion (λ t. 0 < t.coefficient) v.terms.items };
}

impl Vector {
    /// The zero vector of this degree. It allocates nothing yet.
    pub fn zero(alloc: Global, degree: i32) -> Vector
        ensures zero { result ≡ record { degree = degree; terms = [] } }
    {
        Vector {
            degree,
            terms: Vec::new(alloc),
        }
    }

    /// The vector of this degree with these terms, the greatest first and none with the coefficient 0.
    pub fn from_canonical(degree: i32, terms: Vec<Term>) -> Vector
        requires descending { IsDescending (place_cmp ones) terms.items }
        requires nonzero { AllByRecursion (λ t. 0 < t.coefficient) terms.items }
        ensures vector { result ≡ record { degree = degree; terms = terms.items } }
    {
        Vector { degree, terms }
    }

    /// Adds a last term: the coefficient `c` at the generator `position` and the monomial `a`.
    pub fn push(&mut self, position: u64, a: Mono, c: u32) -> Result<(), OutOfMemory>
        requires nonzero { 0 < c }
        requires last { AllByRecursion (λ t. place_cmp ones (place_of position a) t.at ≡ Less) self.old.terms }
        ensures ok { OnOk result (self.new ≡ record self.old { terms = self.old.terms ++ term_of position a c ∷ [] }) }
        ensures err { OnErr result (self.new ≡ self.old) }
    {
        let term = Term {
            position,
            monomial: a,
            coefficient: c,
        };
        self.terms.push(term)?;
        Ok(())
    }

    /// The degree. A zero vector has one too.
    pub fn degree(&self) -> i32
        ensures degree { result ≡ self.now.degree }
    {
        self.degree
    }

    /// The number of terms.
    pub fn len(&self) -> usize
        ensures len { result ≡ length self.now.terms }
        ensures descending { IsDescending (place_cmp ones) self.now.terms }
        ensures nonzero { AllByRecursion (λ t. 0 < t.coefficient) self.now.terms }
    {
        self.terms.len()
    }

    /// Whether this is a zero vector.
    pub fn is_empty(&self) -> bool
        ensures empty { IsTrue result ↔ (self.now.terms ≡ []) }
    {
        self.terms.is_empty()
    }

    /// The terms, the greatest first.
    pub fn terms(&self) -> &[Term]
        ensures terms { result.now ≡ self.now.terms }
        ensures descending { IsDescending (place_cmp ones) self.now.terms }
        ensures nonzero { AllByRecursion (λ t. 0 < t.coefficient) self.now.terms }
    {
        &self.terms
    }

    /// The generator, monomial and coefficient of term `k`. The greatest term has number 0.
    pub fn term(&self, k: usize) -> (u64, Mono, u32)
        requires { k < length self.now.terms }
        ensures term { slice_get self.now.terms k ≡ Some (term_of result.0 result.1 result.2) }
        ensures descending { IsDescending (place_cmp ones) self.now.terms }
        ensures nonzero { AllByRecursion (λ t. 0 < t.coefficient) self.now.terms }
    {
        let term = &self.terms[k];
        (term.position, term.monomial, term.coefficient)
    }
}

impl Copied for Vector {
    fn copy(&self, alloc: Global) -> Result<Vector, OutOfMemory> {
        let mut terms = Vec::with_capacity(alloc, self.terms.len())?;
        terms.extend_from_slice(&self.terms)?;
        Ok(Vector {
            degree: self.degree,
            terms,
        })
    }
}

#[cfg(test)]
mod tests;
