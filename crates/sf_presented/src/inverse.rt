ghost use Rattle.sf_presented.specs.InverseLaws.{HasIdentityByUnits, HasReducedInverse, HasOneReducedInverse, HasInverseDescriptions};

/// A matrix is the identity modulo relations where it gives each unit vector back.
pub fn identities_are_seen_at_units()
    ensures units { HasIdentityByUnits }
{}

/// Modulo a prime a map of presented modules that has an inverse has one reduced inverse matrix.
pub fn inverses_are_unique()
    ensures exists { HasReducedInverse }
    ensures unique { HasOneReducedInverse }
{}

/// Modulo a prime the coordinates of two lists of generators in one another are inverse maps.
pub fn descriptions_are_inverse()
    ensures inverse { HasInverseDescriptions }
{}
