ghost use Rattle.std.specs.Prelude.{◌≡◌, ◌<◌, [], MatchOption};
ghost use Rattle.sf_buchberger.specs.Turns.{IsTurn, count_at};

use crate::growth::state::Growth;

/// Whose turn it is: a generator's or a pair's.
#[derive(Clone, Copy, Debug, PartialEq, Eq)]
pub(crate) enum Turn {
    Generator,
    Pair,
}

impl Growth {
    /// Whose turn it is: what waits with the least degree comes next, and generators before pairs. There is none
    /// exactly where nothing waits.
    pub(crate) fn turn(&self) -> Option<Turn>
        ensures turn { MatchOption result ((self.now.waiting ≡ []) × (self.now.pairs ≡ [])) (IsTurn self.now.waiting self.now.pairs) }
    {
        match (self.waiting.least(), self.pairs.least()) {
            (None, None) => None,
            (Some(_), None) => Some(Turn::Generator),
            (None, Some(_)) => Some(Turn::Pair),
            (Some(generator), Some(pair)) => {
                if generator <= pair {
                    Some(Turn::Generator)
                } else {
                    Some(Turn::Pair)
                }
            }
        }
    }

    /// How many have the least degree, among those whose turn it is.
    pub(crate) fn count(&self, turn: Turn) -> usize
        requires turn { IsTurn self.now.waiting self.now.pairs turn }
        ensures count { result ≡ count_at self.now.waiting self.now.pairs turn }
        ensures some { 0 < result }
    {
        match turn {
            Turn::Generator => self.waiting.count_least(),
            Turn::Pair => self.pairs.count_least(),
        }
    }
}
