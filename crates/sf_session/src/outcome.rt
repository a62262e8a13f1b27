use sf_matrix::Name;
use sf_reply::Reply;
use sf_script::{LineFault, Named};
use sf_text::Ring;

/// What comes of a line: its reply, and what it changes.
#[derive(Debug, Drop)]
pub enum Outcome {
    /// A query is answered.
    Tells(Reply),
    /// The version is accepted.
    Opens,
    /// The ring is accepted.
    Enters(Ring),
    /// The limit is accepted.
    Limits(u32),
    /// A name is defined.
    Defines(Name, Named),
    /// The line is refused.
    Refuses(LineFault),
    /// A limit is refused. Unlike any other line with a reply this one bars no later limit.
    Bars(LineFault),
}
