ghost use Rattle.sf_algebra.specs.DegreeLaws.{GivesVariablesTheirWeights, AddsMonomialDegrees, SumsExponents, IsAtLeastTheSum};

/// A variable has its weight as its degree, and degrees of factors add; so the degree of a monomial is the sum of weight
/// times exponent, which is the sum of the exponents where each weight is 1, and no less where each is at least 1.
pub fn monomial_degrees()
    ensures variables { GivesVariablesTheirWeights }
    ensures products { AddsMonomialDegrees }
    ensures ones { SumsExponents }
    ensures positive { IsAtLeastTheSum }
{}
