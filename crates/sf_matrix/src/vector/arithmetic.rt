ghost use Rattle.std.specs.Prelude.{◌≡◌, ◌<◌, ◌+ℤ◌, pos, IfOk};
ghost use Rattle.sf_algebra.specs.Monomials.{exponent_sum};
ghost use Rattle.sf_algebra.specs.Multiples.{place_product, negative, multiple};
ghost use Rattle.sf_algebra.specs.Rings.{ones};
ghost use Rattle.sf_algebra.specs.Sums.{add};
ghost use Rattle.sf_algebra.specs.Terms.{IsCanonical};
ghost use Rattle.sf_algebra.specs.Vectors.{place_cmp};
ghost use Rattle.sf_matrix.specs.Bounds.{IsDegree, HasRoom};

use crate::combinations::push_multiple;
use crate::sums::{add_terms, sum_of_gathered};
use crate::vector::{Term, Vector};
use sf_field::{Modulus, OutOfMemory};
use sf_mono::Mono;
use std::alloc::Global;

impl Vector {
    /// The sum with a vector of the same degree, by a merge.
    pub fn add(
        &self,
        alloc: Global,
        modulus: Modulus,
        other: &Vector,
    ) -> Result<Vector, OutOfMemory>
        requires degree { other.now.degree ≡ self.now.degree }
        requires left { IsCanonical (place_cmp ones) modulus self.now.terms }
        requires right { IsCanonical (place_cmp ones) modulus other.now.terms }
        ensures sum { IfOk result (λ v. v ≡ record { degree = self.now.degree; terms = add (place_cmp ones) modulus self.now.terms other.now.terms }) }
        ensures canonical { IfOk result (λ v. IsCanonical (place_cmp ones) modulus v.terms) }
    {
        let terms = add_terms(alloc, modulus, &self.terms, &other.terms)?;
        Ok(Vector {
            degree: self.degree,
            terms,
        })
    }

    /// The negative, of the same degree.
    pub fn negative(&self, alloc: Global, modulus: Modulus) -> Result<Vector, OutOfMemory>
        requires canonical { IsCanonical (place_cmp ones) modulus self.now.terms }
        ensures negative { IfOk result (λ v. v ≡ record { degree = self.now.degree; terms = negative modulus self.now.terms }) }
        ensures canonical { IfOk result (λ v. IsCanonical (place_cmp ones) modulus v.terms) }
    {
        let terms = negative_terms(alloc, modulus, &self.terms)?;
        Ok(Vector {
            degree: self.degree,
            terms,
        })
    }

    /// The multiple by a monomial and a coefficient, a residue. The degree grows by the monomial's sum of exponents.
    pub fn multiple(
        &self,
        alloc: Global,
        modulus: Modulus,
        a: Mono,
        c: u32,
    ) -> Result<Vector, OutOfMemory>
        requires canonical { IsCanonical (place_cmp ones) modulus self.now.terms }
        requires residue { c < modulus }
        requires room { HasRoom a self.now.terms }
        requires degree { IsDegree (self.now.degree +ℤ pos (exponent_sum a)) }
        ensures multiple { IfOk result (λ v. v ≡ record {
          degree = self.now.degree +ℤ pos (exponent_sum a);
          terms = multiple (place_cmp ones) place_product modulus (record { at = a; coefficient = c }) self.now.terms;
        }) }
        ensures canonical { IfOk result (λ v. IsCanonical (place_cmp ones) modulus v.terms) }
    {
        let factor = Term {
            position: 0,
            monomial: a,
            coefficient: c,
        };
        let mut products = Vec::with_capacity(alloc, self.terms.len())?;
        push_multiple(&mut products, modulus, &factor, &self.terms)?;
        let terms = sum_of_gathered(alloc, modulus, products)?;
        Ok(Vector {
            degree: raised(self.degree, a),
            terms,
        })
    }
}

/// The degree and the monomial's sum of exponents.
fn raised(degree: i32, a: Mono) -> i32
    requires { IsDegree (degree +ℤ pos (exponent_sum a)) }
    ensures { result ≡ degree +ℤ pos (exponent_sum a) }
{
    degree + a.sum() as i32
}

/// The terms with the negatives of their coefficients.
pub(crate) fn negative_terms(
    alloc: Global,
    modulus: Modulus,
    terms: &[Term],
) -> Result<Vec<Term>, OutOfMemory>
    requires canonical { IsCanonical (place_cmp ones) modulus terms.now }
    ensures negative { IfOk result (λ v. v.items ≡ negative modulus terms.now) }
    ensures canonical { IfOk result (λ v. IsCanonical (place_cmp ones) modulus v.items) }
{
    let mut negative = Vec::with_capacity(alloc, terms.len())?;
    for term in terms {
        let coefficient = modulus.neg(term.coefficient);
        negative.push(Term {
            coefficient,
            ..*term
        })?;
    }
    Ok(negative)
}
