ghost use Rattle.sf_bidual.specs.PurityLaws.{HasInversePurityMaps, HasPurityParts, HasPuritySubmodules, HasRisingPurity};

/// A module has its purity filtration, where no resolution goes on past the columns: its submodules rise from 0 to the whole
/// module, and its parts are the last page of the bidual bicomplex.
pub fn modules_have_purity_filtrations()
    ensures rising { HasRisingPurity }
    ensures submodules { HasPuritySubmodules }
    ensures parts { HasPurityParts }
    ensures inverse { HasInversePurityMaps }
{}
