//! What the plans answer, each as the contract of a function that does nothing.

ghost use Rattle.sf_module.specs.ModuleLaws.{AnswersCokernel, AnswersHomology, AnswersImage, AnswersKernel, AnswersSoundCokernel, AnswersSoundHomology, AnswersSoundImage, AnswersSoundKernel};

/// The plan of a homology answers the one homology of the definitions.
pub fn homologies_are_answered()
    ensures { AnswersHomology }
{}

/// The plan of a kernel answers the one kernel of the definitions.
pub fn kernels_are_answered()
    ensures { AnswersKernel }
{}

/// That of an image the one image.
pub fn images_are_answered()
    ensures { AnswersImage }
{}

/// And that of a cokernel the one cokernel.
pub fn cokernels_are_answered()
    ensures { AnswersCokernel }
{}

/// What they answer are matrices over the ring of what they are given, whose degrees exceed those of small matrices by at most the
/// limit.
pub fn answers_are_sound()
    ensures homology { AnswersSoundHomology }
    ensures kernel { AnswersSoundKernel }
    ensures image { AnswersSoundImage }
    ensures cokernel { AnswersSoundCokernel }
{}
