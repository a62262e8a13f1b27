use sf_text::Ring;

/// The ring of a session, and what is settled of the limit on its bases.
#[derive(Debug, Drop)]
pub struct Setting {
    pub ring: Ring,
    /// The greatest sum of the exponents of a lead.
    pub limit: u32,
    /// Whether the limit was given.
    pub limited: bool,
    /// Whether another line with a reply came after the ring, so that no limit can be given any more.
    pub noted: bool,
}

/// Which headings were accepted.
#[derive(Debug, Drop)]
pub enum Heads {
    /// Nothing was given yet.
    Unopened,
    /// The version was given.
    Opened,
    /// The ring was given too.
    Within(Setting),
}
