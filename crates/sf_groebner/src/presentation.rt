ghost use Rattle.sf_groebner.specs.PresentationLaws.{HasOneHomology, HasOneKernel, HasOneImage, HasOneCokernel, HasOneResolution, HasMatrixHomology, HasMatrixSteps};

/// The canonical presentations and resolutions are determined by the matrices from which they are taken.
pub fn presentations_are_unique()
    ensures homology { HasOneHomology }
    ensures kernel { HasOneKernel }
    ensures image { HasOneImage }
    ensures cokernel { HasOneCokernel }
    ensures resolution { HasOneResolution }
{}

/// Generators, relations and the steps of resolutions are graded matrices.
pub fn presentations_are_matrices()
    ensures homology { HasMatrixHomology }
    ensures resolution { HasMatrixSteps }
{}
