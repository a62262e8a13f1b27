//! What the plan of a resolution answers, each as the contract of a function that does nothing.

ghost use Rattle.sf_resolve.specs.ResolutionLaws.{AnswersResolution, AnswersSoundSteps, EndsAfterVariables};

/// The plan of the first k steps answers these steps of the canonical resolution; there is one such answer.
pub fn resolutions_are_answered()
    ensures { AnswersResolution }
{}

/// Over n variables, at least one, the steps past the first n have no row.
pub fn resolutions_end_after_variables()
    ensures { EndsAfterVariables }
{}

/// The steps are matrices over the ring of the relations, and their rows have degrees that exceed those of small matrices by at most
/// the limit.
pub fn steps_are_sound()
    ensures { AnswersSoundSteps }
{}
