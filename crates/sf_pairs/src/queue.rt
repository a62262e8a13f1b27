ghost use Rattle.std.specs.Prelude.{◌≡◌, ◌<◌, ◌≤◌, ◌↔◌, [], ◌∷◌, ◌++◌, int_le, length, true, false, IsNone, IfSome, OnOk, OnErr};
ghost use Rattle.std.specs.List.Sorted.{IsPartitionedBy, IsPartitionPoint};
ghost use Rattle.sf_pairs.specs.Pushes.{NumberedPair};
ghost use Rattle.sf_pairs.specs.Queue.{pair_of, HasLeast, count_least, IsTaken};

use sf_field::OutOfMemory;
use std::alloc::Global;
use std::collections::VecDeque;
use std::marker::Model;

/// A pair of polynomials, by their numbers, with its degree and the number of its push.
#[derive(Clone, Copy, Debug, PartialEq, Eq)]
struct Entry {
    number: u64,
    degree: i64,
    first: u32,
    second: u32,
}

impl Model for Entry {
    ghost use Rattle.sf_pairs.specs.Pushes.{NumberedPair};

    ghost Value = { NumberedPair };

    ghost view = { λ e. record { number = e.number; pair = record { degree = e.degree; first = e.first; second = e.second } } };

    ghost inverse = { λ e. record { number = e.number; degree = e.pair.degree; first = e.pair.first; second = e.pair.second } };
}

/// The pairs that a Buchberger loop has still to look at, of which those of least degree come next.
///
/// Contracts see it as the list of the pairs with their degrees, in the order in which they were pushed. They are kept by
/// their degrees, and those of one degree in the order of their pushes, so that a pair is found without a search of all.
#[derive(Debug, Drop)]
pub struct PairQueue {
    pushes: u64,
    entries: VecDeque<Entry>,
}

impl Model for PairQueue {
    ghost use Rattle.std.specs.Prelude.{List};
    ghost use Rattle.sf_pairs.specs.Pushes.{IsKept, in_order};
    ghost use Rattle.sf_pairs.specs.Queue.{QueuedPair};

    ghost Value = { List QueuedPair };

    ghost view = { λ q. in_order q.pushes q.entries.items };

    ghost invariant = { λ q. IsKept q.pushes q.entries.items };
}

impl PairQueue {
    /// The empty queue. It allocates nothing yet.
    pub fn new(alloc: Global) -> PairQueue
        ensures empty { result ≡ [] }
    {
        PairQueue {
            pushes: 0,
            entries: VecDeque::new(alloc),
        }
    }

    /// Adds a pair of this degree, by the numbers of its two polynomials. There is room for 2^64 - 1 pushes.
    pub fn push(&mut self, degree: i64, pair: (u32, u32)) -> Result<(), OutOfMemory>
        ensures ok { OnOk result (self.new ≡ self.old ++ pair_of degree pair.0 pair.1 ∷ []) }
        ensures err { OnErr result (self.new ≡ self.old) }
    {
        let (first, second) = pair;
        let number = self.pushes;
        let pushes = number.checked_add(1).ok_or(OutOfMemory)?;
        let place = place_behind(&self.entries, degree);
        self.entries.insert(
            place,
            Entry {
                number,
                degree,
                first,
                second,
            },
        )?;
        self.pushes = pushes;
        Ok(())
    }

    /// The least degree of a pair, or `None` exactly where there is no pair.
    pub fn least(&self) -> Option<i64>
        ensures none { IsNone result ↔ (self.now ≡ []) }
        ensures least { IfSome result (λ d. HasLeast d self.now) }
    {
        match self.entries.front() {
            Some(entry) => Some(entry.degree),
            None => None,
        }
    }

    /// How many pairs have the least degree. There are none where there is no pair.
    pub fn count_least(&self) -> usize
        ensures count { result ≡ count_least self.now }
    {
        match self.entries.front() {
            Some(entry) => place_behind(&self.entries, entry.degree),
            None => 0,
        }
    }

    /// Removes the pair of least degree that has `at` other pairs of least degree before it, and answers it.
    pub fn take(&mut self, at: usize) -> (u32, u32)
        requires { at < count_least self.old }
        ensures { IsTaken at self.old result.0 result.1 self.new }
    {
        let Some(taken) = self.entries.remove(at) else {
            unreachable!()
        };
        (taken.first, taken.second)
    }
}

/// The place behind all entries of at most this degree.
fn place_behind(entries: &VecDeque<Entry>, degree: i64) -> usize
    requires { IsPartitionedBy (λ (e : NumberedPair). int_le e.pair.degree degree) entries.now.items }
    ensures within { result ≤ length entries.now.items }
    ensures point { IsPartitionPoint (λ (e : NumberedPair). int_le e.pair.degree degree ≡ true)
        (λ (e : NumberedPair). int_le e.pair.degree degree ≡ false) entries.now.items result }
{
    entries.partition_point(|entry| entry.degree <= degree)
}
