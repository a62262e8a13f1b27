ghost use Rattle.sf_bidual.specs.AugmentationLaws.{HasAllCycles, HasBoundariesOfRelations, HasCyclesOfVectors, HasNoOtherHomology};

/// The total complex of the bidual bicomplex of a module has the module as its homology in one degree, by the augmentation,
/// and no homology in the others.
pub fn bidual_has_the_homology_of_the_module()
    ensures cycles { HasCyclesOfVectors }
    ensures boundaries { HasBoundariesOfRelations }
    ensures all { HasAllCycles }
    ensures others { HasNoOtherHomology }
{}
