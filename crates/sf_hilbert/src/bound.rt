ghost use Rattle.sf_hilbert.specs.HilbertLaws.{EndsAfterVariables, HasNoConstantsFromSecond, IsExactModuloVariables, HasNoHomologyWithoutRows};
ghost use Rattle.sf_hilbert.specs.ThreeVariables.{HasThreeSteps};

/// A resolution over n variables, n at least 1, has no rows past its first n steps. From the second step on it has no
/// constants, and from step n + 1 on it is exact modulo the first n variables. Where the map that leaves a place has no
/// rows, the place has no homology.
pub fn resolutions_end_after_the_variables()
    ensures end { EndsAfterVariables }
    ensures constants { HasNoConstantsFromSecond }
    ensures exact { IsExactModuloVariables }
    ensures homology { HasNoHomologyWithoutRows }
{}

/// The residue field of a ring in three variables has a resolution of three steps.
pub fn resolution_of_residue_field()
    ensures steps { HasThreeSteps }
{}
