ghost use Rattle.std.specs.Prelude.{◌≡◌, ◌<◌, ◌≤◌, [], length, slice_get, Some, IfSome, IfOk, IsTrue, ◌↔◌};
ghost use Rattle.sf_algebra.specs.Bounds.{GREATEST_SUM};
ghost use Rattle.sf_algebra.specs.Multiples.{negative};
ghost use Rattle.sf_algebra.specs.Polynomials.{polynomial_sum, polynomial_multiple, polynomial_product};
ghost use Rattle.sf_algebra.specs.Rings.{plain};
ghost use Rattle.sf_algebra.specs.Sums.{put};
ghost use Rattle.sf_poly.specs.Bounds.{IsBoundedBy, MultipleFits, ProductFits};
ghost use Rattle.sf_poly.specs.Equality.{same_polynomial, same_polynomial_equivalence, same_polynomial_partial};
ghost use Rattle.sf_poly.specs.Polynomials.{IsPolynomial, monomial_term, lead, degree};

use crate::products::{multiple_of_terms, product_of_terms};
use crate::sums::{add_terms, negative, push_nonzero};
use crate::term::Term;
use sf_field::{Copied, Modulus, OutOfMemory};
use sf_mono::Mono;
use std::alloc::Global;
use std::marker::Model;

/// A polynomial over the residues modulo a prime. Contracts see it as the ring, in which each variable has the weight 1,
/// and the list of its terms, the greatest first and none with the coefficient 0.
#[derive(Debug, Drop)]
pub struct Poly {
    modulus: Modulus,
    terms: Vec<Term>,
}

impl Model for Poly {
    ghost use Rattle.sf_algebra.specs.Rings.{plain};
    ghost use Rattle.sf_poly.specs.Polynomials.{Polynomial, IsPolynomial};

    ghost Value = { Polynomial };

    ghost view = { λ f. record { ring = plain f.modulus; terms = f.terms.items } };

    ghost invariant = { λ f. IsPolynomial (record { ring = plain f.modulus; terms = f.terms.items }) };
}

impl Poly {
    /// The polynomial 0. It allocates nothing yet.
    pub fn zero(alloc: Global, modulus: Modulus) -> Poly
        ensures zero { result ≡ record { ring = plain modulus; terms = [] } }
    {
        Poly {
            modulus,
            terms: Vec::new(alloc),
        }
    }

    /// The polynomial with one term, or 0 where its coefficient is 0.
    pub fn term(alloc: Global, modulus: Modulus, a: Mono, c: u32) -> Result<Poly, OutOfMemory>
        requires residue { c < modulus }
        ensures term { IfOk result (λ f. f ≡ record { ring = plain modulus; terms = put a c [] }) }
    {
        let mut terms = Vec::new(alloc);
        push_nonzero(
            &mut terms,
            Term {
                monomial: a,
                coefficient: c,
            },
        )?;
        Ok(Poly { modulus, terms })
    }

    /// The sum with a polynomial of the same ring.
    pub fn add(&self, alloc: Global, other: &Poly) -> Result<Poly, OutOfMemory>
        requires ring { self.now.ring ≡ other.now.ring }
        ensures sum { IfOk result (λ f. f ≡ record self.now { terms = polynomial_sum self.now.ring self.now.terms other.now.terms }) }
    {
        let terms = add_terms(alloc, self.modulus, &self.terms, &other.terms)?;
        Ok(Poly {
            modulus: self.modulus,
            terms,
        })
    }

    /// The difference with a polynomial of the same ring.
    pub fn sub(&self, alloc: Global, other: &Poly) -> Result<Poly, OutOfMemory>
        requires ring { self.now.ring ≡ other.now.ring }
        ensures difference { IfOk result (λ f. f ≡ record self.now {
          terms = polynomial_sum self.now.ring self.now.terms (negative self.now.ring.modulus other.now.terms);
        }) }
    {
        let negative = negative(alloc, self.modulus, &other.terms)?;
        let terms = add_terms(alloc, self.modulus, &self.terms, &negative)?;
        Ok(Poly {
            modulus: self.modulus,
            terms,
        })
    }

    /// The product with a term, which is 0 where the term's coefficient `c` is 0.
    ///
    /// It fits where the exponents of `a` and the degree add to at most 65,535.
    pub fn scale(&self, alloc: Global, a: Mono, c: u32) -> Result<Poly, OutOfMemory>
        requires residue { c < self.now.ring.modulus }
        requires room { MultipleFits a self.now.terms }
        ensures multiple { IfOk result (λ f. f ≡ record self.now {
          terms = polynomial_multiple self.now.ring (monomial_term a c) self.now.terms;
        }) }
    {
        if c == 0 {
            return Ok(Poly::zero(alloc, self.modulus));
        }
        let factor = Term {
            monomial: a,
            coefficient: c,
        };
        let terms = multiple_of_terms(alloc, self.modulus, &factor, &self.terms)?;
        Ok(Poly {
            modulus: self.modulus,
            terms,
        })
    }

    /// The product with a polynomial of the same ring.
    ///
    /// It fits where one of the two is 0, or their degrees add to at most 65,535.
    pub fn mul(&self, alloc: Global, other: &Poly) -> Result<Poly, OutOfMemory>
        requires ring { self.now.ring ≡ other.now.ring }
        requires room { ProductFits self.now.terms other.now.terms }
        ensures product { IfOk result (λ f. f ≡ record self.now {
          terms = polynomial_product self.now.ring self.now.terms other.now.terms;
        }) }
    {
        let terms = product_of_terms(alloc, self.modulus, &self.terms, &other.terms)?;
        Ok(Poly {
            modulus: self.modulus,
            terms,
        })
    }

    /// The monomial and the coefficient of the greatest term, or `None` exactly where the polynomial is 0.
    pub fn lead(&self) -> Option<(Mono, u32)>
        ensures lead { result ≡ lead self.now.terms }
        ensures polynomial { IsPolynomial self.now }
    {
        let term = self.terms.first()?;
        Some((term.monomial, term.coefficient))
    }

    /// The greatest sum of exponents, that of the greatest term, or `None` exactly where the polynomial is 0.
    pub fn degree(&self) -> Option<u32>
        ensures degree { result ≡ degree self.now.terms }
        ensures greatest { IfSome result (λ d. IsBoundedBy d self.now.terms) }
        ensures bounded { IfSome result (λ d. d ≤ GREATEST_SUM) }
    {
        let first = self.terms.first()?;
        Some(first.monomial.sum())
    }

    /// Whether the products of the monomial `a` with all terms have exponents that add to at most 65,535.
    pub fn multiple_fits(&self, a: Mono) -> bool
        ensures { IsTrue result ↔ MultipleFits a self.now.terms }
    {
        match self.degree() {
            Some(degree) => a.sum() + degree <= 65535,
            None => true,
        }
    }

    /// Whether the products of all terms with those of another polynomial have exponents that add to at most 65,535.
    pub fn product_fits(&self, other: &Poly) -> bool
        ensures { IsTrue result ↔ ProductFits self.now.terms other.now.terms }
    {
        match (self.degree(), other.degree()) {
            (Some(left), Some(right)) => left + right <= 65535,
            _ => true,
        }
    }

    /// The number of terms, which is 0 exactly for the polynomial 0.
    pub fn len(&self) -> usize
        ensures len { result ≡ length self.now.terms }
        ensures polynomial { IsPolynomial self.now }
    {
        self.terms.len()
    }

    /// The monomial and the coefficient of term `k`. The greatest term has number 0.
    pub fn term_at(&self, k: usize) -> (Mono, u32)
        requires { k < length self.now.terms }
        ensures term { slice_get self.now.terms k ≡ Some (monomial_term result.0 result.1) }
        ensures polynomial { IsPolynomial self.now }
    {
        let term = &self.terms[k];
        (term.monomial, term.coefficient)
    }

    /// The prime that the coefficients are taken modulo.
    pub fn modulus(&self) -> Modulus
        ensures ring { self.now.ring ≡ plain result }
        ensures polynomial { IsPolynomial self.now }
    {
        self.modulus
    }
}

impl Copied for Poly {
    fn copy(&self, alloc: Global) -> Result<Poly, OutOfMemory> {
        let mut terms = Vec::with_capacity(alloc, self.terms.len())?;
        terms.extend_from_slice(&self.terms)?;
        Ok(Poly {
            modulus: self.modulus,
            terms,
        })
    }
}

impl PartialEq for Poly {
    ghost eq = { same_polynomial };

    ghost laws = { same_polynomial_partial };

    fn eq(&self, other: &Poly) -> bool {
        self.modulus == other.modulus && self.terms.as_slice() == other.terms.as_slice()
    }
}

impl Eq for Poly {
    ghost laws = { same_polynomial_equivalence };
}
