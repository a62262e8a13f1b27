ghost use Rattle.sf_bicomplex.specs.GivenHomology.{GivesCokernel, GivesExactPlaces, HasInverseGivenMaps, HasOneGivenPart, HasRisingGivenParts};

/// A presented module that is the homology of a total complex by some matrix has a filtration by columns through it, whose
/// parts are the last page. Resolved rows give such a matrix.
pub fn modules_have_filtrations()
    ensures rising { HasRisingGivenParts }
    ensures parts { HasOneGivenPart }
    ensures inverse { HasInverseGivenMaps }
    ensures cokernel { GivesCokernel }
    ensures exact { GivesExactPlaces }
{}
