//! What the plans answer, each as the contract of a function that does nothing.

ghost use Rattle.sf_derived.specs.DerivedLaws.{AnswersExt, AnswersSoundExt, AnswersSoundTor, AnswersTor};

/// The plan of Ext answers the one homology of the maps from the canonical resolution.
pub fn exts_are_answered()
    ensures { AnswersExt }
{}

/// That of Tor the one homology of the tensor product with it.
pub fn tors_are_answered()
    ensures { AnswersTor }
{}

/// What they answer are matrices over the ring, whose degrees exceed those of small matrices by at most the limit.
pub fn answers_are_sound()
    ensures ext { AnswersSoundExt }
    ensures tor { AnswersSoundTor }
{}
