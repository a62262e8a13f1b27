ghost use Rattle.std.specs.Prelude.{◌≡◌, ℕ, ◌<◌, ◌≤◌, List, length, take, Option, IsSome, OnOk, OnErr};
ghost use Rattle.std.specs.Io.KnownBytes.{Appends};
ghost use Rattle.sf_io.specs.Count.{Rose};
ghost use Rattle.sf_io.specs.Push.{IfTook, pushed_count};

use crate::errors::WriteFault;

/// What one push did.
#[derive(Clone, Copy, Debug, PartialEq, Eq, Hash)]
pub enum Push {
    /// It took so many bytes, at least one.
    Took(usize),
    /// It took none, and the sink counted a fault.
    Failed,
}

/// Where bytes go. The count of faults stays at `u64::MAX` once it is there.
pub trait Sink {
    // The bytes that were written so far, where the sink tells them.
    ghost written: { Self → Option (List ℕ) };

    // How many faults there were. It never falls.
    ghost faults: { Self → ℕ };

    /// Appends bytes from the front of the piece.
    fn push(&mut self, piece: &[u8]) -> Push
        requires { 0 < length piece.now }
        ensures count { IfTook result (λ n. (0 < n) × (n ≤ length piece.now)) }
        ensures bytes { let front = take (pushed_count result) piece.now in
            Appends (written self.old) (written self.new) front }
        ensures told { IsSome (written self.old) → IsSome (written self.new) }
        ensures failed { result ≡ Push.Failed → Rose (faults self.old) (faults self.new) }
        ensures later { faults self.old ≤ faults self.new };
}

/// Writes all the bytes. Each push is offered all that are left. At a fault a front of them was
/// written, and not the whole.
pub fn write_all<K: Sink>(sink: &mut K, bytes: &[u8]) -> Result<(), WriteFault>
    ensures ok { OnOk result (Appends (K.written sink.old) (K.written sink.new) bytes.now) }
    ensures part { OnErr result ((n : ℕ) × (n < length bytes.now)
        × Appends (K.written sink.old) (K.written sink.new) (take n bytes.now)) }
    ensures fault { OnErr result (Rose (K.faults sink.old) (K.faults sink.new)) }
    ensures later { K.faults sink.old ≤ K.faults sink.new }
{
    let mut at = 0;
    while at < bytes.len() {
        match sink.push(&bytes[at..]) {
            Push::Took(count) => at += count,
            Push::Failed => return Err(WriteFault),
        }
    }
    Ok(())
}

#[cfg(test)]
mod tests;
