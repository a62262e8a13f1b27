ghost use Rattle.sf_algebra.specs.Monomials.{product, monomial_cmp};
ghost use Rattle.sf_algebra.specs.MultipleLaws.{HasCanonicalMultiples, MultipliesCoefficients, KeepsWithOne, ActsByProducts, TakesSumsToSums, TakesSumsOfCoefficients, NegatesWithNegativeOne, MultipliesEachTerm};
ghost use Rattle.sf_algebra.specs.Multiples.{place_product};
ghost use Rattle.sf_algebra.specs.Rings.{Weights};
ghost use Rattle.sf_algebra.specs.Vectors.{place_cmp};

/// The terms of polynomials act on vectors, additively in the vector and in the term's coefficient.
pub fn multiples_act()
    ensures canonical { (weights : Weights) → HasCanonicalMultiples (place_cmp weights) place_product }
    ensures product_coefficients { (weights : Weights) → MultipliesCoefficients (place_cmp weights) place_product }
    ensures one { (weights : Weights) → KeepsWithOne (place_cmp weights) place_product }
    ensures products { (weights : Weights) → ActsByProducts (place_cmp weights) place_product }
    ensures sums { (weights : Weights) → TakesSumsToSums (place_cmp weights) place_product }
    ensures coefficients { (weights : Weights) → TakesSumsOfCoefficients (place_cmp weights) place_product }
    ensures negatives { (weights : Weights) → NegatesWithNegativeOne (place_cmp weights) place_product }
    ensures terms { (weights : Weights) → MultipliesEachTerm (place_cmp weights) place_product }
{}

/// The terms of polynomials act on polynomials, additively in the polynomial and in the term's coefficient.
pub fn multiples_of_polynomials_act()
    ensures canonical { (weights : Weights) → HasCanonicalMultiples (monomial_cmp weights) product }
    ensures product_coefficients { (weights : Weights) → MultipliesCoefficients (monomial_cmp weights) product }
    ensures one { (weights : Weights) → KeepsWithOne (monomial_cmp weights) product }
    ensures products { (weights : Weights) → ActsByProducts (monomial_cmp weights) product }
    ensures sums { (weights : Weights) → TakesSumsToSums (monomial_cmp weights) product }
    ensures coefficients { (weights : Weights) → TakesSumsOfCoefficients (monomial_cmp weights) product }
    ensures negatives { (weights : Weights) → NegatesWithNegativeOne (monomial_cmp weights) product }
    ensures terms { (weights : Weights) → MultipliesEachTerm (monomial_cmp weights) product }
{}
