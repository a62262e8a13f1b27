ghost use Rattle.sf_algebra.specs.GroupLaws.{HasCanonicalSums, AddsCoefficients, HasCommutativeSums, HasAssociativeSums, HasZero, HasCanonicalNegatives, HasNegatives};
ghost use Rattle.sf_algebra.specs.HomogeneousLaws.{HasHomogeneousSums, HasHomogeneousNegatives, AddsDegrees, HasHomogeneousCombinations, NeedsCoefficientsOfItsDegree, HasHomogeneousParts};
ghost use Rattle.sf_algebra.specs.Rings.{Weights};
ghost use Rattle.sf_algebra.specs.Vectors.{place_cmp};

/// The vectors of a free module, which may mix degrees, are a commutative group.
pub fn vectors_are_a_group()
    ensures canonical_sums { (weights : Weights) → HasCanonicalSums (place_cmp weights) }
    ensures sum_coefficients { (weights : Weights) → AddsCoefficients (place_cmp weights) }
    ensures commutative_sums { (weights : Weights) → HasCommutativeSums (place_cmp weights) }
    ensures associative_sums { (weights : Weights) → HasAssociativeSums (place_cmp weights) }
    ensures zero { (weights : Weights) → HasZero (place_cmp weights) }
    ensures canonical_negatives { (weights : Weights) → HasCanonicalNegatives (place_cmp weights) }
    ensures negatives { (weights : Weights) → HasNegatives (place_cmp weights) }
{}

/// The homogeneous vectors are closed under sums in one degree, negatives, multiples and combinations, and a
/// homogeneous combination needs only the coefficients that have its degree.
pub fn vectors_are_graded()
    ensures sums { HasHomogeneousSums }
    ensures negatives { HasHomogeneousNegatives }
    ensures multiples { AddsDegrees }
    ensures combinations { HasHomogeneousCombinations }
    ensures coefficients { NeedsCoefficientsOfItsDegree }
    ensures parts { HasHomogeneousParts }
{}
