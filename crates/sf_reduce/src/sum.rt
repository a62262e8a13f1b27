ghost use Rattle.std.specs.Prelude.{◌≡◌, ◌<◌, [], ◌∷◌, IfOk, OnOk, MatchOption};
ghost use Rattle.sf_algebra.specs.Rings.{plain, ones};
ghost use Rattle.sf_algebra.specs.Terms.{IsCanonical};
ghost use Rattle.sf_algebra.specs.VectorOperations.{row_sum, row_multiple};
ghost use Rattle.sf_algebra.specs.Vectors.{place_cmp};
ghost use Rattle.sf_matrix.specs.Bounds.{HasRoom};
ghost use Rattle.sf_matrix.specs.Places.{factor_of};
ghost use Rattle.sf_reduce.specs.TermSums.{sum_vector};

use crate::bucket::{Bucket, enter, take_greatest};
use sf_field::{Modulus, OutOfMemory};
use sf_matrix::{Term, Vector, push_multiple};
use std::alloc::Global;
use std::marker::Model;

/// A sum of terms of one degree, of which the greatest is taken first. Contracts see it as the canonical list of the
/// sum.
///
/// It is kept in buckets, the sum of which it is, so that each term is moved a number of times that is logarithmic in
/// the number of terms.
#[derive(Debug, Drop)]
pub struct Sum {
    modulus: Modulus,
    degree: i32,
    buckets: Vec<Bucket>,
}

impl Model for Sum {
    ghost use Rattle.sf_reduce.specs.Buckets.{AreCanonical, sum_of_lists};
    ghost use Rattle.sf_reduce.specs.TermSums.{TermSum};

    ghost Value = { TermSum };

    ghost view = { λ s. record { modulus = s.modulus; degree = s.degree; terms = sum_of_lists s.modulus s.buckets.items } };

    ghost invariant = { λ s. AreCanonical s.modulus s.buckets.items };
}

impl Sum {
    /// The sum of no terms, of this degree. It allocates nothing yet.
    pub fn new(alloc: Global, modulus: Modulus, degree: i32) -> Sum
        ensures zero { result ≡ record { modulus = modulus; degree = degree; terms = [] } }
    {
        Sum {
            modulus,
            degree,
            buckets: Vec::new(alloc),
        }
    }

    /// The degree.
    pub fn degree(&self) -> i32
        ensures degree { result ≡ self.now.degree }
        ensures canonical { IsCanonical (place_cmp ones) self.now.modulus self.now.terms }
    {
        self.modulus.facts();
        self.degree
    }

    /// Adds the terms of a canonical list.
    pub fn push_all(&mut self, alloc: Global, terms: &[Term]) -> Result<(), OutOfMemory>
        requires canonical { IsCanonical (place_cmp ones) self.old.modulus terms.now }
        ensures modulus { self.new.modulus ≡ self.old.modulus }
        ensures degree { self.new.degree ≡ self.old.degree }
        ensures sum { OnOk result (self.new.terms ≡ row_sum (plain self.old.modulus) self.old.terms terms.now) }
    {
        let mut added = Vec::with_capacity(alloc, terms.len())?;
        added.extend_from_slice(terms)?;
        self.push_vec(alloc, added)
    }

    /// Adds the products of a term of a polynomial, `factor`, with each term of a canonical list.
    pub fn push_multiple(
        &mut self,
        alloc: Global,
        factor: &Term,
        terms: &[Term],
    ) -> Result<(), OutOfMemory>
        requires canonical { IsCanonical (place_cmp ones) self.old.modulus terms.now }
        requires room { HasRoom factor.now.at.monomial terms.now }
        requires factor { factor.now.coefficient < self.old.modulus }
        ensures modulus { self.new.modulus ≡ self.old.modulus }
        ensures degree { self.new.degree ≡ self.old.degree }
        ensures sum { OnOk result (self.new.terms ≡ row_sum (plain self.old.modulus) self.old.terms
            (row_multiple (plain self.old.modulus) (factor_of factor.now) terms.now)) }
    {
        let products = products_of(alloc, self.modulus, factor, terms)?;
        self.push_vec(alloc, products)
    }

    /// Adds the terms of a canonical list, which is taken over.
    fn push_vec(&mut self, alloc: Global, terms: Vec<Term>) -> Result<(), OutOfMemory>
        requires canonical { IsCanonical (place_cmp ones) self.old.modulus terms.items }
        ensures modulus { self.new.modulus ≡ self.old.modulus }
        ensures degree { self.new.degree ≡ self.old.degree }
        ensures sum { OnOk result (self.new.terms ≡ row_sum (plain self.old.modulus) self.old.terms terms.items) }
    {
        self.modulus.facts();
        enter(alloc, self.modulus, &mut self.buckets, terms)?;
        Ok(())
    }

    /// Takes the greatest term away and answers it. There is none exactly where the sum is 0. It takes no memory.
    pub fn pop(&mut self) -> Option<Term>
        ensures modulus { self.new.modulus ≡ self.old.modulus }
        ensures degree { self.new.degree ≡ self.old.degree }
        ensures first { MatchOption result ((self.old.terms ≡ []) × (self.new.terms ≡ []))
            (λ t. self.old.terms ≡ t ∷ self.new.terms) }
    {
        take_greatest(self.modulus, &mut self.buckets)
    }

    /// The vector that the sum is.
    pub fn into_vector(self, alloc: Global) -> Result<Vector, OutOfMemory>
        ensures vector { IfOk result (λ v. v ≡ sum_vector self) }
    {
        let degree = self.degree();
        let mut left = self;
        let mut terms = Vec::new(alloc);
        while let Some(term) = left.pop() {
            terms.push(term)?;
        }
        Ok(Vector::from_canonical(degree, terms))
    }
}

/// The multiple of a canonical list by a term of a polynomial. Modulo a prime no product of nonzero coefficients is
/// 0.
fn products_of(
    alloc: Global,
    modulus: Modulus,
    factor: &Term,
    terms: &[Term],
) -> Result<Vec<Term>, OutOfMemory>
    requires canonical { IsCanonical (place_cmp ones) modulus terms.now }
    requires room { HasRoom factor.now.at.monomial terms.now }
    requires factor { factor.now.coefficient < modulus }
    ensures products { IfOk result (λ v. v.items ≡ row_multiple (plain modulus) (factor_of factor.now) terms.now) }
    ensures canonical { IfOk result (λ v. IsCanonical (place_cmp ones) modulus v.items) }
{
    modulus.facts();
    if factor.coefficient == 0 {
        return Ok(Vec::new(alloc));
    }
    let mut products = Vec::with_capacity(alloc, terms.len())?;
    push_multiple(&mut products, modulus, factor, terms)?;
    Ok(products)
}
