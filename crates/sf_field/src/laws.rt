//! What holds of the moduli and their residues, each as the contract of a function that does nothing.

ghost use Rattle.sf_algebra.specs.Fields.{HasNoZeroDivisors, HasUniqueInverses, IsField};
ghost use Rattle.sf_field.specs.Moduli.{EachModulus};
ghost use Rattle.sf_algebra.specs.Primes.{IsPrime};

/// Each modulus is a prime.
pub fn moduli_are_primes()
    ensures { EachModulus IsPrime }
{}

/// The residues modulo each modulus are a field.
pub fn residues_are_a_field()
    ensures { EachModulus IsField }
{}

/// A residue has at most one inverse.
pub fn inverses_are_unique()
    ensures { EachModulus HasUniqueInverses }
{}

/// A product of residues is zero only where a factor is.
pub fn residues_have_no_zero_divisors()
    ensures { EachModulus HasNoZeroDivisors }
{}
