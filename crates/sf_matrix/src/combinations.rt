ghost use Rattle.std.specs.Prelude.{◌≡◌, ◌+◌, ◌<◌, ◌≤◌, ◌++◌, length, map, IfOk, OnOk};
ghost use Rattle.std.specs.List.{AllByRecursion};
ghost use Rattle.sf_algebra.specs.Bounds.{GREATEST_SUM};
ghost use Rattle.sf_algebra.specs.MatrixOperations.{row_at, row_combination};
ghost use Rattle.sf_algebra.specs.Monomials.{exponent_sum};
ghost use Rattle.sf_algebra.specs.Multiples.{place_product, term_product};
ghost use Rattle.sf_algebra.specs.Rings.{plain, ones};
ghost use Rattle.sf_algebra.specs.Terms.{IsCanonical, IsNonzeroResidue};
ghost use Rattle.sf_algebra.specs.Vectors.{place_cmp};
ghost use Rattle.sf_matrix.specs.Bounds.{HasRoom, CombinationFits};
ghost use Rattle.sf_matrix.specs.Places.{factor_of};

use crate::sums::sum_of_gathered;
use crate::vector::{Term, Vector};
use sf_field::{Modulus, OutOfMemory};
use std::alloc::Global;

impl Term {
    /// The product with a monomial and a coefficient, those of `factor`; the position stays.
    pub fn times(&self, modulus: Modulus, factor: &Term) -> Term
        requires room { exponent_sum factor.now.at.monomial + exponent_sum self.now.at.monomial ≤ GREATEST_SUM }
        requires residue { self.now.coefficient < modulus }
        requires factor { factor.now.coefficient < modulus }
        ensures { result ≡ term_product place_product modulus (factor_of factor.now) self.now }
    {
        Term {
            position: self.position,
            monomial: factor.monomial.mul(self.monomial),
            coefficient: modulus.mul(factor.coefficient, self.coefficient),
        }
    }
}

/// Adds the products of a term of a polynomial, `factor`, with each of the terms at the end.
pub fn push_multiple(
    products: &mut Vec<Term>,
    modulus: Modulus,
    factor: &Term,
    terms: &[Term],
) -> Result<(), OutOfMemory>
    requires room { HasRoom factor.now.at.monomial terms.now }
    requires residues { AllByRecursion (IsNonzeroResidue modulus) terms.now }
    requires factor { factor.now.coefficient < modulus }
    ensures ok { OnOk result (products.new.items
        ≡ products.old.items ++ map (term_product place_product modulus (factor_of factor.now)) terms.now) }
{
    for term in terms {
        products.push(term.times(modulus, factor))?;
    }
    Ok(())
}

/// The combination of the rows with the coefficients `c`: the sum of each term of `c` times the row at its position.
pub(crate) fn combination(
    alloc: Global,
    modulus: Modulus,
    c: &[Term],
    rows: &[Vector],
) -> Result<Vec<Term>, OutOfMemory>
    requires positions { AllByRecursion (λ t. t.at.position < length rows.now) c.now }
    requires room { CombinationFits (row_at rows.now) c.now }
    requires coefficients { AllByRecursion (IsNonzeroResidue modulus) c.now }
    requires residues { AllByRecursion (λ v. AllByRecursion (IsNonzeroResidue modulus) v.terms) rows.now }
    ensures combination { IfOk result (λ v. v.items ≡ row_combination (plain modulus) rows.now c.now) }
    ensures canonical { IfOk result (λ v. IsCanonical (place_cmp ones) modulus v.items) }
{
    let mut products = Vec::new(alloc);
    for factor in c {
        let row = &rows[factor.position as usize];
        push_multiple(&mut products, modulus, factor, &row.terms)?;
    }
    sum_of_gathered(alloc, modulus, products)
}
