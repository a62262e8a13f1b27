ghost use Rattle.sf_groebner.specs.MinimalLaws.{ChoosesModuloSpan, ChoosesModuloZero, HasOneMinimalSpan, HasOneMinimalRelations, GeneratesSpan};

/// Minimal generators may be chosen by the generators that were kept before.
pub fn minimal_generators_are_chosen()
    ensures span { ChoosesModuloSpan }
    ensures zero { ChoosesModuloZero }
{}

/// There is at most one list of minimal generators, and it generates the module.
pub fn minimal_generators_are_unique()
    ensures span { HasOneMinimalSpan }
    ensures relations { HasOneMinimalRelations }
    ensures generate { GeneratesSpan }
{}
