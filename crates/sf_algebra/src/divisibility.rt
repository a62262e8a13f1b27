ghost use Rattle.sf_algebra.specs.DivisibilityLaws.{DividesMultiples, DividesItself, DividesTransitively, DividesAntisymmetrically, DividesNoLesser, MultipliesBack, IsOnlyQuotient, CancelsFactors, IsCommonMultiple, IsLeastMultiple, HasGreaterDegree, HasBoundedDegree};

/// Divisibility of monomials: exactly the multiples are divided, in a partial order that the order of monomials goes on.
pub fn monomial_divisors()
    ensures multiples { DividesMultiples }
    ensures reflexive { DividesItself }
    ensures transitive { DividesTransitively }
    ensures antisymmetric { DividesAntisymmetrically }
    ensures order { DividesNoLesser }
{}

/// The quotient by a divisor is the only monomial whose product with the divisor is the monomial that it divides.
pub fn monomial_quotients()
    ensures multiplies_back { MultipliesBack }
    ensures only { IsOnlyQuotient }
    ensures cancels { CancelsFactors }
{}

/// The least common multiple divides exactly what both monomials divide.
pub fn monomial_multiples()
    ensures common { IsCommonMultiple }
    ensures least { IsLeastMultiple }
    ensures degree { HasGreaterDegree }
    ensures bounded { HasBoundedDegree }
{}
