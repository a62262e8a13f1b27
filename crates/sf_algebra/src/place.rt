ghost use Rattle.sf_algebra.specs.PlaceLaws.{PlacesKeptByProducts, OneActsAsIdentity, ProductsActByFactors};

/// The monomials act on the places of a free module, and keep their order.
pub fn place_products()
    ensures order { PlacesKeptByProducts }
    ensures one { OneActsAsIdentity }
    ensures factors { ProductsActByFactors }
{}
