ghost use Rattle.sf_blocks.specs.TotalLaws.{HasTotalDifferentials, SquaresToZero, HasTotalRelations, SquaresToZeroModulo};

/// The differentials of the total complex of a bicomplex, and the relations of its modules together.
pub fn total_differentials()
    ensures matrices { HasTotalDifferentials }
    ensures squares { SquaresToZero }
    ensures relations { HasTotalRelations }
    ensures squares_modulo { SquaresToZeroModulo }
{}
