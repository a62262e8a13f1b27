ghost use Rattle.sf_presented.specs.FreeBasisLaws.{HasUnitBasis, HasUnitBasisOfAll};

/// The reduced basis of a whole free module is its unit vectors, by ascending degree and then by position.
pub fn unit_vectors_are_a_basis()
    ensures identity { HasUnitBasis }
    ensures all { HasUnitBasisOfAll }
{}
