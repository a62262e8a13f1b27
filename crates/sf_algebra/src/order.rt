ghost use Rattle.sf_algebra.specs.OrderInWords.{FindsTheGreater};
ghost use Rattle.sf_algebra.specs.Orders.{IsLinearOrder};
ghost use Rattle.sf_algebra.specs.Monomials.{monomial_cmp};
ghost use Rattle.sf_algebra.specs.Rings.{Weights};
ghost use Rattle.sf_algebra.specs.Vectors.{place_cmp};

/// The order of monomials is linear.
pub fn monomial_order()
    ensures { (weights : Weights) → IsLinearOrder (monomial_cmp weights) }
{}

/// The order of monomials is the degree reverse lexicographic one in the words of its definition.
pub fn monomial_order_in_words()
    ensures greater { FindsTheGreater }
{}

/// The order of the places of a free module is linear.
pub fn place_order()
    ensures { (weights : Weights) → IsLinearOrder (place_cmp weights) }
{}
