ghost use Rattle.sf_groebner.specs.LeadLaws.{TestsDivisors, TestsPlaceDivisors};

/// Tests decide whether a monomial, or a place, divides another.
pub fn divisors_are_tested()
    ensures monomials { TestsDivisors }
    ensures places { TestsPlaceDivisors }
{}
