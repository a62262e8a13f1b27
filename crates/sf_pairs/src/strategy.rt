ghost use Rattle.std.specs.Prelude.{◌≡◌, ◌<◌, ◌-◌, ◌%◌, false};
ghost use Rattle.sf_pairs.specs.Spreads.{after_choice};

use std::marker::Model;

/// Chooses which of the pairs of least degree comes next. Any choice gives the same results.
pub trait Strategy: Drop {
    /// The number of the pair, among `count` of them.
    fn choose(&mut self, count: usize) -> usize
        requires { 0 < count }
        ensures { result < count };

    /// Hears whether the last reduction ended in zero.
    fn told(&mut self, zero: bool);
}

/// A boxed strategy chooses as the one in the box does.
impl Strategy for Box<dyn Strategy> {
    fn choose(&mut self, count: usize) -> usize
        requires { 0 < count }
        ensures { result < count }
    {
        (**self).choose(count)
    }

    fn told(&mut self, zero: bool) {
        (**self).told(zero)
    }
}

/// Takes the first pair.
#[derive(Clone, Copy, Debug)]
pub struct FirstStrategy;

impl Strategy for FirstStrategy {
    fn choose(&mut self, count: usize) -> usize
        requires { 0 < count }
        ensures { result ≡ 0 }
    {
        0
    }

    fn told(&mut self, _zero: bool) {}
}

/// Takes the last pair.
#[derive(Clone, Copy, Debug)]
pub struct LastStrategy;

impl Strategy for LastStrategy {
    fn choose(&mut self, count: usize) -> usize
        requires { 0 < count }
        ensures { result ≡ count - 1 }
    {
        count - 1
    }

    fn told(&mut self, _zero: bool) {}
}

/// The greatest number that a [`SpreadStrategy`] counts up to.
const GREATEST_NUMBER: u32 = 1_000_000;

/// Takes the pair whose number is a count modulo that of the pairs. The count starts at 0, rises by 1 at each choice, or by
/// 3 where the last reduction ended in zero, and goes back to 0 where it would pass 1,000,000.
#[derive(Clone, Copy, Debug)]
pub struct SpreadStrategy {
    number: u32,
    zero: bool,
}

impl Model for SpreadStrategy {
    ghost use Rattle.sf_pairs.specs.Spreads.{Spread};

    ghost Value = { Spread };

    ghost view = { λ s. record { number = s.number; zero = s.zero } };

    ghost inverse = { λ s. record { number = s.number; zero = s.zero } };
}

impl SpreadStrategy {
    /// The strategy that starts at 0.
    pub fn new() -> SpreadStrategy
        ensures start { result ≡ record { number = 0; zero = false } }
    {
        SpreadStrategy {
            number: 0,
            zero: false,
        }
    }
}

impl Strategy for SpreadStrategy {
    fn choose(&mut self, count: usize) -> usize
        requires { 0 < count }
        ensures choice { result ≡ self.old.number % count }
        ensures state { self.new ≡ after_choice self.old }
    {
        let at = self.number as usize % count;
        let raised = self.number.saturating_add(if self.zero { 3 } else { 1 });
        self.number = if raised > GREATEST_NUMBER { 0 } else { raised };
        at
    }

    fn told(&mut self, zero: bool)
        ensures { self.new ≡ record { number = self.old.number; zero = zero } }
    {
        self.zero = zero;
    }
}
