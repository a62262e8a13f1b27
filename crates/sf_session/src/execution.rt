ghost use Rattle.std.specs.Prelude.{◌≡◌, ◌≢◌, ◌⊎◌, ◌<◌, ◌≤◌, ℕ, List, [], ◌∷◌, length, map, codes, string_bytes, vec_len, ◌↔◌, IsTrue, IfSome, OnOk, IsErrOf};
ghost use Rattle.std.specs.Io.KnownBytes.{Appends, IsAtEnd};
ghost use Rattle.sf_io.specs.Count.{Rose, RoseMore};
ghost use Rattle.sf_io.specs.Pull.{Gives};
ghost use Rattle.sf_session.specs.State.{start};
ghost use Rattle.sf_text.specs.ReadTexts.{LONGEST_TEXT};
ghost use Rattle.sf_session.specs.Scripts.{LONGEST, IsOutput, IsFront, IsWholeFront, Outcome, IsReadLength};

use crate::session::Session;
use sf_io::{ReadError, Sink, Source, read_all, write_all};
use sf_pairs::Strategy;
use sf_text::next_line;
use std::alloc::Global;

/// The greatest number of bytes of a script.
const LONGEST_SCRIPT: usize = 1_048_576;

/// How a run ended.
#[derive(Clone, Copy, Debug, PartialEq, Eq)]
pub enum Status {
    /// The job was done, and all its bytes were written.
    Done,
    /// The words aren't accepted. Nothing was read or written.
    Usage,
    /// The source failed. Nothing was written.
    ReadFault,
    /// The sink failed. What was written is a beginning of the output.
    WriteFault,
    /// Memory was wanting. What was written is the replies to some first lines.
    Memory,
    /// The source gave more than 1,048,576 bytes. Nothing was written.
    TooLong,
    /// The text that was to be checked is refused.
    Refused,
}

impl Status {
    ghost use Rattle.sf_session.specs.Scripts.{status_number};

    /// The program's exit status.
    pub fn number(self) -> u8
        ensures { result ≡ status_number self }
    {
        match self {
            Status::Done => 0,
            Status::Usage => 2,
            Status::ReadFault => 3,
            Status::WriteFault => 4,
            Status::Memory => 5,
            Status::TooLong => 6,
            Status::Refused => 7,
        }
    }
}

/// Why the lines of a script weren't all answered.
#[derive(Clone, Copy, Debug, PartialEq, Eq)]
enum Stop {
    Sink,
    Memory,
}

/// Reads a script from the source to its end, and writes the reply to each line as soon as it is known.
///
/// The words are those after the program's name. The session has the first of the strategies; any other
/// gives the same bytes.
pub fn run<S: Source, K: Sink>(
    alloc: Global,
    words: &[String],
    source: &mut S,
    sink: &mut K,
    strategies: Vec<Box<dyn Strategy>>,
) -> Status
    requires { 0 < vec_len strategies }

    // `Usage` comes exactly where the words aren't accepted.
    ensures usage { result ≡ Status.Usage → map string_bytes words.now ≢ codes "run" ∷ [] }
    ensures accepted { map string_bytes words.now ≢ codes "run" ∷ [] → result ≡ Status.Usage }
    ensures untouched { result ≡ Status.Usage → (source.new ≡ source.old) × (sink.new ≡ sink.old) }

    // What was read, and what was written of it, whether or not the ends tell their bytes.
    ensures read_and_written { (read : List ℕ) × (out : List ℕ) × Gives S.left S.given source.old source.new read
        × Appends (K.written sink.old) (K.written sink.new) out
        × Outcome result read out × IsReadLength result (length read) }

    // Memory was wanting before the script was read, or behind its end.
    ensures memory { result ≡ Status.Memory
        → ((source.new ≡ source.old) × (sink.new ≡ sink.old)) ⊎ IsAtEnd (S.left source.new) }

    // What was written, where the source tells its bytes.
    ensures output { IfSome (S.left source.old) (λ script. (out : List ℕ)
        × Appends (K.written sink.old) (K.written sink.new) out × Outcome result script out) }
    ensures end { (result ≡ Status.Done) ⊎ (result ≡ Status.WriteFault) → IsAtEnd (S.left source.new) }
    ensures done_short { result ≡ Status.Done → IfSome (S.left source.old) (λ script. length script ≤ LONGEST) }
    ensures cut_short { result ≡ Status.WriteFault → IfSome (S.left source.old) (λ script. length script ≤ LONGEST) }
    ensures unwritten { (result ≡ Status.ReadFault) ⊎ (result ≡ Status.TooLong) → sink.new ≡ sink.old }

    // The causes of the other ends.
    ensures read_fault { result ≡ Status.ReadFault → Rose (S.faults source.old) (S.faults source.new) }
    ensures write_fault { result ≡ Status.WriteFault → Rose (K.faults sink.old) (K.faults sink.new) }
    ensures too_long { result ≡ Status.TooLong → RoseMore LONGEST (S.given source.old) (S.given source.new) }
    ensures not_refused { result ≢ Status.Refused }
{
    if !are_accepted(words) {
        return Status::Usage;
    }
    match read_all(alloc, source, LONGEST_SCRIPT) {
        Err(ReadError::Fault) => Status::ReadFault,
        Err(ReadError::TooLong) => Status::TooLong,
        Err(ReadError::Memory) => Status::Memory,
        Ok(script) => {
            let mut strategies = strategies;
            let mut session = Session::new(alloc, strategies.swap_remove(0));
            match answer_all(&mut session, script.as_slice(), sink) {
                Ok(()) => Status::Done,
                Err(Stop::Sink) => Status::WriteFault,
                Err(Stop::Memory) => Status::Memory,
            }
        }
    }
}

fn are_accepted(words: &[String]) -> bool
    ensures { IsTrue result ↔ (map string_bytes words.now ≡ codes "run" ∷ []) }
{
    words.len() == 1 && is_run(&words[0])
}

fn is_run(word: &String) -> bool
    ensures { IsTrue result ↔ (string_bytes word.now ≡ codes "run") }
{
    word.as_str() == "run"
}

/// Answers the lines of a script in turn.
fn answer_all<K: Sink>(session: &mut Session, script: &[u8], sink: &mut K) -> Result<(), Stop>
    requires start { session.old ≡ start }
    requires short { length script.now ≤ LONGEST_TEXT }
    ensures ok { OnOk result ((out : List ℕ)
        × Appends (K.written sink.old) (K.written sink.new) out × IsOutput script.now out) }
    ensures sink { IsErrOf result Stop.Sink → ((out : List ℕ)
        × Appends (K.written sink.old) (K.written sink.new) out × IsFront script.now out) }
    ensures memory { IsErrOf result Stop.Memory → ((out : List ℕ)
        × Appends (K.written sink.old) (K.written sink.new) out × IsWholeFront script.now out) }
    ensures fault { IsErrOf result Stop.Sink → Rose (K.faults sink.old) (K.faults sink.new) }
    ensures later { K.faults sink.old ≤ K.faults sink.new }
{
    let mut rest = script;
    while let Some((line, others)) = next_line(rest) {
        let Ok(reply) = session.line(line) else {
            return Err(Stop::Memory);
        };
        let Ok(()) = write_all(sink, reply.as_slice()) else {
            return Err(Stop::Sink);
        };
        rest = others;
    }
    Ok(())
}
