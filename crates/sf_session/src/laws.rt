//! Laws of the replies and of the output. The functions do nothing: their contracts are the laws.

ghost use Rattle.sf_session.specs.Laws.{HasOneReply, HasOneOutput, FrontBeginsOutput, IsFixedByNames, ChangesNoAnswer};

/// After any lines, each line has exactly one reply.
pub fn one_reply()
    ensures { HasOneReply }
{}

/// Each script has exactly one output.
pub fn one_output()
    ensures { HasOneOutput }
{}

/// What was written when the sink failed or memory was wanting is a beginning of the output.
pub fn front_of_output()
    ensures { FrontBeginsOutput }
{}

/// The reply to a line that gives no limit is fixed by the accepted headings and the names, and an earlier query changes no later
/// such reply.
pub fn replies_are_independent()
    ensures fixed { IsFixedByNames }
    ensures unchanged { ChangesNoAnswer }
{}
