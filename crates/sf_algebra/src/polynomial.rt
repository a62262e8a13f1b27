ghost use Rattle.sf_algebra.specs.GroupLaws.{HasCanonicalSums, AddsCoefficients, HasCommutativeSums, HasAssociativeSums, HasZero, HasCanonicalNegatives, HasNegatives};
ghost use Rattle.sf_algebra.specs.Monomials.{monomial_cmp};
ghost use Rattle.sf_algebra.specs.RingLaws.{HasCanonicalProducts, SumsProductsOfCoefficients, HasCommutativeProducts, HasAssociativeProducts, DistributesOverSums, HasOne};
ghost use Rattle.sf_algebra.specs.Rings.{Weights};

/// The polynomials over the residues modulo a positive number are a commutative ring.
///
/// The coefficients of sums are sums, and those of products sums of products; the other laws say that this is a ring.
pub fn polynomials_are_a_ring()
    ensures canonical_sums { (weights : Weights) → HasCanonicalSums (monomial_cmp weights) }
    ensures sum_coefficients { (weights : Weights) → AddsCoefficients (monomial_cmp weights) }
    ensures commutative_sums { (weights : Weights) → HasCommutativeSums (monomial_cmp weights) }
    ensures associative_sums { (weights : Weights) → HasAssociativeSums (monomial_cmp weights) }
    ensures zero { (weights : Weights) → HasZero (monomial_cmp weights) }
    ensures canonical_negatives { (weights : Weights) → HasCanonicalNegatives (monomial_cmp weights) }
    ensures negatives { (weights : Weights) → HasNegatives (monomial_cmp weights) }
    ensures canonical_products { HasCanonicalProducts }
    ensures product_coefficients { SumsProductsOfCoefficients }
    ensures commutative_products { HasCommutativeProducts }
    ensures associative_products { HasAssociativeProducts }
    ensures distributive { DistributesOverSums }
    ensures one { HasOne }
{}
