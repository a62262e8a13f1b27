ghost use Rattle.sf_presented.specs.PresentedLaws.{PresentsKernel, PresentsImage, PresentsCokernel, PresentsHomology, HasSumsInKernel, HasSumsInImage, HasSumsInHomology, SpansRelations, SpansSyzygiesOfStep, HasExactResolutions, HasMatrixKernel, HasMatrixImage, HasMatrixCokernel};

/// Modulo a prime the generators of kernels, images, cokernels and homology generate, and their relations span all relations.
pub fn presentations_present()
    ensures kernel { PresentsKernel }
    ensures image { PresentsImage }
    ensures cokernel { PresentsCokernel }
    ensures homology { PresentsHomology }
    ensures kernel_sums { HasSumsInKernel }
    ensures image_sums { HasSumsInImage }
    ensures homology_sums { HasSumsInHomology }
{}

/// Modulo a prime the rows of the first step of a resolution span the relations, and those of each other the syzygies before.
pub fn resolutions_are_exact()
    ensures first { SpansRelations }
    ensures next { SpansSyzygiesOfStep }
    ensures whole { HasExactResolutions }
{}

/// Generators and relations of kernels, images and cokernels are graded matrices.
pub fn kernels_and_images_are_matrices()
    ensures kernel { HasMatrixKernel }
    ensures image { HasMatrixImage }
    ensures cokernel { HasMatrixCokernel }
{}
