ghost use Rattle.std.specs.Prelude.{◌≡◌, IfOk};
ghost use Rattle.std.specs.List.{AllByRecursion};
ghost use Rattle.sf_algebra.specs.Monomials.{product, monomial_cmp};
ghost use Rattle.sf_algebra.specs.Multiples.{multiple};
ghost use Rattle.sf_algebra.specs.Polynomials.{polynomial_product};
ghost use Rattle.sf_algebra.specs.Rings.{plain, ones};
ghost use Rattle.sf_algebra.specs.Terms.{IsCanonical, IsNonzeroResidue};
ghost use Rattle.sf_poly.specs.Bounds.{ProductsHaveRoom};

use crate::sums::add_terms;
use crate::term::Term;
use sf_field::{Modulus, OutOfMemory};
use std::alloc::Global;

/// The products of a term whose coefficient isn't 0 with each of the terms.
pub fn multiple_of_terms(
    alloc: Global,
    modulus: Modulus,
    factor: &Term,
    terms: &[Term],
) -> Result<Vec<Term>, OutOfMemory>
    requires room { ProductsHaveRoom factor.now.at terms.now }
    requires factor { IsNonzeroResidue modulus factor.now }
    requires terms { IsCanonical (monomial_cmp ones) modulus terms.now }
    ensures multiple { IfOk result (λ v. v.items ≡ multiple (monomial_cmp ones) product modulus factor.now terms.now) }
    ensures canonical { IfOk result (λ v. IsCanonical (monomial_cmp ones) modulus v.items) }
{
    // the modulus is a prime, so that no product is 0
    modulus.facts();
    let mut products = Vec::with_capacity(alloc, terms.len())?;
    for term in terms {
        products.push(term.times(modulus, factor))?;
    }
    Ok(products)
}

/// The product of two lists of terms: the sum of the products of the first list's halves with the second list.
pub fn product_of_terms(
    alloc: Global,
    modulus: Modulus,
    left: &[Term],
    right: &[Term],
) -> Result<Vec<Term>, OutOfMemory>
    requires room { AllByRecursion (λ t. ProductsHaveRoom t.at right.now) left.now }
    requires left { AllByRecursion (IsNonzeroResidue modulus) left.now }
    requires right { IsCanonical (monomial_cmp ones) modulus right.now }
    ensures product { IfOk result (λ v. v.items ≡ polynomial_product (plain modulus) left.now right.now) }
    ensures canonical { IfOk result (λ v. IsCanonical (monomial_cmp ones) modulus v.items) }
{
    match left {
        [] => Ok(Vec::new(alloc)),
        [t] => multiple_of_terms(alloc, modulus, t, right),
        _ => {
            let (front, back) = left.split_at(left.len() / 2);
            let front = product_of_terms(alloc, modulus, front, right)?;
            let back = product_of_terms(alloc, modulus, back, right)?;
            add_terms(alloc, modulus, &front, &back)
        }
    }
}
