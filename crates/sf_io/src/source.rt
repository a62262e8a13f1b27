ghost use Rattle.std.specs.Prelude.{◌≡◌, ◌≢◌, ℕ, ◌+◌, ◌<◌, ◌≤◌, List, [], length, take, drop, Option, IsSome, IfOk, OnOk, IsErrOf, IfSome};
ghost use Rattle.std.specs.Io.KnownBytes.{Consumes, IsAtEnd};
ghost use Rattle.sf_io.specs.Count.{Rose, RoseBy, RoseMore};
ghost use Rattle.sf_io.specs.Pull.{IfGot, pulled_count, Gives};

use crate::errors::ReadError;
use std::alloc::Global;

/// What one pull gave.
#[derive(Clone, Copy, Debug, PartialEq, Eq, Hash)]
pub enum Pull {
    /// So many bytes, at least one.
    Got(usize),
    /// None, since none is left.
    End,
    /// None, and the source counted a fault.
    Failed,
}

/// Where bytes come from. A count of faults or of bytes given stays at `u64::MAX` once it is there.
pub trait Source {
    // The bytes that are left, where the source tells them.
    ghost left: { Self → Option (List ℕ) };

    // How many faults there were. It never falls.
    ghost faults: { Self → ℕ };

    // How many bytes were given. Every source tells it.
    ghost given: { Self → ℕ };

    /// Puts the next bytes at the front of the room.
    fn pull(&mut self, room: &mut [u8]) -> Pull
        requires { 0 < length room.old }
        ensures count { IfGot result (λ n. (0 < n) × (n ≤ length room.old)) }
        ensures bytes { let next = take (pulled_count result) room.new in
            Consumes (left self.old) (left self.new) next }
        ensures told { IsSome (left self.old) → IsSome (left self.new) }
        ensures given { RoseBy (pulled_count result) (given self.old) (given self.new) }

        // The end comes, where the bytes are told, exactly where none is left and no call fails.
        ensures end { result ≡ Pull.End → IsAtEnd (left self.new) }
        ensures none_left { left self.old ≡ Some [] → result ≢ Pull.Failed → result ≡ Pull.End }

        ensures failed { result ≡ Pull.Failed → Rose (faults self.old) (faults self.new) }
        ensures later { faults self.old ≤ faults self.new };
}

/// Reads a source to its end, which must come within `cap` bytes. It takes its memory before the
/// first pull, and reads at most one byte more than `cap`.
pub fn read_all<S: Source>(alloc: Global, source: &mut S, cap: usize) -> Result<Vec<u8>, ReadError>
    ensures bytes { IfOk result (λ v. Consumes (S.left source.old) (S.left source.new) v.items) }
    ensures given { IfOk result (λ v.
        RoseBy (length v.items) (S.given source.old) (S.given source.new)) }
    ensures end { OnOk result (IsAtEnd (S.left source.new)) }
    ensures short { IfOk result (λ v. length v.items ≤ cap) }

    // A fault comes before more than `cap` bytes came.
    ensures fault { IsErrOf result ReadError.Fault
        → Rose (S.faults source.old) (S.faults source.new) }
    ensures read_at_fault { IsErrOf result ReadError.Fault → ((read : List ℕ)
        × Gives S.left S.given source.old source.new read × (length read ≤ cap)) }

    // `TooLong` comes as soon as more than `cap` bytes came.
    ensures too_long { IsErrOf result ReadError.TooLong → ((read : List ℕ)
        × Gives S.left S.given source.old source.new read × (length read ≡ cap + 1)) }
    ensures too_many_left { IsErrOf result ReadError.TooLong
        → IfSome (S.left source.old) (λ bytes. cap < length bytes) }
    ensures too_many_given { IsErrOf result ReadError.TooLong
        → RoseMore cap (S.given source.old) (S.given source.new) }

    ensures memory { IsErrOf result ReadError.Memory → source.new ≡ source.old }
    ensures later { S.faults source.old ≤ S.faults source.new }
{
    let mut bytes = vec![in alloc; 0; cap.saturating_add(1)]?;
    let count = fill(source, &mut bytes)?;
    bytes.truncate(count);
    Ok(bytes)
}

/// Pulls until the source ends, fails or has filled the room, and answers how many bytes came
/// before the end.
fn fill<S: Source>(source: &mut S, room: &mut [u8]) -> Result<usize, ReadError>
    ensures given { IfOk result (λ n.
        Gives S.left S.given source.old source.new (take n room.new)) }
    ensures end { OnOk result (IsAtEnd (S.left source.new)) }
    ensures short { IfOk result (λ n. n < length room.old) }

    ensures fault { IsErrOf result ReadError.Fault
        → Rose (S.faults source.old) (S.faults source.new) }
    ensures read_at_fault { IsErrOf result ReadError.Fault → ((read : List ℕ)
        × Gives S.left S.given source.old source.new read × (length read < length room.old)) }

    ensures too_long { IsErrOf result ReadError.TooLong
        → Gives S.left S.given source.old source.new room.new }

    ensures memory { result ≢ Err ReadError.Memory }
    ensures later { S.faults source.old ≤ S.faults source.new }
{
    let mut filled = 0;
    while filled < room.len() {
        match pull_at(source, room, filled) {
            Pull::Got(count) => filled += count,
            Pull::End => return Ok(filled),
            Pull::Failed => return Err(ReadError::Fault),
        }
    }
    Err(ReadError::TooLong)
}

/// Pulls into the room from a place on, and keeps what stands before it.
fn pull_at<S: Source>(source: &mut S, room: &mut [u8], at: usize) -> Pull
    requires { at < length room.old }
    ensures kept { take at room.new ≡ take at room.old }
    ensures count { IfGot result (λ n. (0 < n) × (at + n ≤ length room.old)) }
    ensures bytes { let next = take (pulled_count result) (drop at room.new) in
        Consumes (S.left source.old) (S.left source.new) next }
    ensures given { RoseBy (pulled_count result) (S.given source.old) (S.given source.new) }
    ensures end { result ≡ Pull.End → IsAtEnd (S.left source.new) }
    ensures failed { result ≡ Pull.Failed → Rose (S.faults source.old) (S.faults source.new) }
    ensures later { S.faults source.old ≤ S.faults source.new }
{
    source.pull(&mut room[at..])
}

#[cfg(test)]
mod tests;
