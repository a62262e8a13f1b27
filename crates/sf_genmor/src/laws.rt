//! What the plans answer, each as the contract of a function that does nothing.

ghost use Rattle.sf_genmor.specs.PlanLaws.{AnswersBasis, AnswersCoordinates, AnswersPresentation, AnswersRelations, AnswersSyzygies};
ghost use Rattle.sf_genmor.specs.PresentationDegrees.{AnswersSmallDegrees};
ghost use Rattle.sf_genmor.specs.QuotientLaws.{AnswersQuotient, AnswersSoundQuotient};

/// A plan of one look answers the reduced basis of the span, that of the syzygies, or that of relations, and nothing else.
pub fn looks_answer_bases()
    ensures basis { AnswersBasis }
    ensures syzygies { AnswersSyzygies }
    ensures relations { AnswersRelations }
{}

/// The plan of a presentation answers the one presentation of a span modulo another one.
pub fn presentations_are_answered()
    ensures { AnswersPresentation }
{}

/// Its generators have the degrees of small matrices, and its relations exceed them by at most the limit.
pub fn presentations_have_small_degrees()
    ensures { AnswersSmallDegrees }
{}

/// The plan of coordinates answers the one list of coordinates, or that there is none.
pub fn coordinates_are_answered()
    ensures { AnswersCoordinates }
{}

/// The plan of a free module modulo a span answers the one presentation of it, matrices over the ring, whose degrees exceed those of
/// small matrices by at most the limit.
pub fn quotients_are_answered()
    ensures quotient { AnswersQuotient }
    ensures sound { AnswersSoundQuotient }
{}
