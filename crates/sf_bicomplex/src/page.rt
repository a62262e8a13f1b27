ghost use Rattle.sf_bicomplex.specs.FirstPages.{HasFirstBoundaries, HasFirstCycles};
ghost use Rattle.sf_bicomplex.specs.PageLaws.{HasBoundariesAmongCycles, HasDifferentialsOfClasses, HasDifferentialsOfCycles, HasKernelAsNextCycles, HasLastPages, HasNestedPages, HasValuesAsNextBoundaries};

/// The differential of a page is a map of its classes, from cycles modulo boundaries to cycles modulo boundaries, and the
/// next page has its kernel as cycles and its values as boundaries. The first page is the homology of the columns, and past
/// the last columns pages stay as they are.
pub fn pages_are_homology()
    ensures nested { HasNestedPages }
    ensures boundaries { HasBoundariesAmongCycles }
    ensures differentials { HasDifferentialsOfCycles }
    ensures classes { HasDifferentialsOfClasses }
    ensures kernel { HasKernelAsNextCycles }
    ensures values { HasValuesAsNextBoundaries }
    ensures last { HasLastPages }
    ensures first_cycles { HasFirstCycles }
    ensures first_boundaries { HasFirstBoundaries }
{}
