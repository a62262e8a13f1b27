//! What the plans of faults answer, each as the contract of a function that does nothing.

ghost use Rattle.sf_object.specs.ComplexLaws.{AnswersFirstFailure, HasNoFailureAsComplex};
ghost use Rattle.sf_object.specs.FaultLaws.{AnswersFirstFault, HasNoFaultAsMap};

/// The plan answers the first relation that isn't sent into relations, or that there is none; there is one such answer.
pub fn first_faults_are_answered()
    ensures { AnswersFirstFault }
{}

/// There is none exactly where the matrix is a map of the modules.
pub fn maps_have_no_fault()
    ensures { HasNoFaultAsMap }
{}

/// The plan of a complex answers the first law that fails, or that all hold; there is one such answer.
pub fn first_failures_are_answered()
    ensures { AnswersFirstFailure }
{}

/// All hold exactly where the image of each map lies in the kernel of the next.
pub fn complexes_have_no_failure()
    ensures { HasNoFailureAsComplex }
{}
