ghost use Rattle.sf_algebra.specs.Monomials.{monomial_cmp};
ghost use Rattle.sf_algebra.specs.Rings.{Weights};
ghost use Rattle.sf_algebra.specs.SumLaws.{MeansCanonicalList, KeepsCoefficients, IsSetByCoefficients, TakesAnyOrder, MeansSumOfParts};
ghost use Rattle.sf_algebra.specs.Vectors.{place_cmp};

/// What a polynomial means that is written as a sum of terms in any order: the canonical list with its coefficients.
pub fn polynomial_sums()
    ensures canonical { (weights : Weights) → MeansCanonicalList (monomial_cmp weights) }
    ensures coefficients { (weights : Weights) → KeepsCoefficients (monomial_cmp weights) }
    ensures unique { (weights : Weights) → IsSetByCoefficients (monomial_cmp weights) }
    ensures any_order { (weights : Weights) → TakesAnyOrder (monomial_cmp weights) }
    ensures parts { (weights : Weights) → MeansSumOfParts (monomial_cmp weights) }
{}

/// What a vector means that is written as a sum of terms in any order: the canonical list with its coefficients.
pub fn vector_sums()
    ensures canonical { (weights : Weights) → MeansCanonicalList (place_cmp weights) }
    ensures coefficients { (weights : Weights) → KeepsCoefficients (place_cmp weights) }
    ensures unique { (weights : Weights) → IsSetByCoefficients (place_cmp weights) }
    ensures any_order { (weights : Weights) → TakesAnyOrder (place_cmp weights) }
    ensures parts { (weights : Weights) → MeansSumOfParts (place_cmp weights) }
{}
