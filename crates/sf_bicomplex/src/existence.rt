ghost use Rattle.sf_bicomplex.specs.ExistenceLaws.{HasInversePartMaps, HasOneDifferential, HasOnePage, HasOnePart, HasOneTotalHomology};

/// Pages and parts of homology have one presentation each, the differentials of pages one matrix each, and parts of homology
/// and the last page inverse matrices.
pub fn pages_have_matrices()
    ensures pages { HasOnePage }
    ensures differentials { HasOneDifferential }
    ensures homology { HasOneTotalHomology }
    ensures parts { HasOnePart }
    ensures inverse { HasInversePartMaps }
{}
