ghost use Rattle.sf_algebra.specs.Monomials.{product};
ghost use Rattle.sf_algebra.specs.Products.{IsCommutative, IsAssociative, LeavesOutOne, KeptByProducts};

/// The monomials form a commutative monoid, whose products keep the order.
pub fn monomial_products()
    ensures commutative { IsCommutative product }
    ensures associative { IsAssociative product }
    ensures one { LeavesOutOne }
    ensures order { KeptByProducts }
{}
