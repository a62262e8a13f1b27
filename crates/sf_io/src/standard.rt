ghost use Rattle.std.specs.Prelude.{◌≡◌};

use crate::sink::{Push, Sink};
use crate::source::{Pull, Source};
use std::io::{Read, Write};

/// A source over a reader. Each error of the reader is a fault.
#[derive(Debug, Drop)]
pub struct StdSource<R> {
    reader: R,
    faults: u64,
    given: u64,
}

impl<R: Read> StdSource<R> {
    /// A source that gave nothing yet.
    pub fn new(reader: R) -> Self
        ensures left { ⟦<StdSource<R> as Source>⟧.left result ≡ R.remaining reader }
        ensures faults { ⟦<StdSource<R> as Source>⟧.faults result ≡ 0 }
        ensures given { ⟦<StdSource<R> as Source>⟧.given result ≡ 0 }
    {
        StdSource {
            reader,
            faults: 0,
            given: 0,
        }
    }
}

impl<R: Read> Source for StdSource<R> {
    ghost left = { λ s. R.remaining s.reader };

    ghost faults = { λ s. s.faults };

    ghost given = { λ s. s.given };

    fn pull(&mut self, room: &mut [u8]) -> Pull {
        let given = self.given;
        match self.reader.read(room) {
            Ok(0) => Pull::End,
            Ok(count) => {
                self.given = given.saturating_add(count as u64);
                Pull::Got(count)
            }
            Err(_) => {
                self.faults = self.faults.saturating_add(1);
                Pull::Failed
            }
        }
    }
}

/// A sink over a writer. Each error of the writer is a fault, and so is a write that takes nothing.
#[derive(Debug, Drop)]
pub struct StdSink<W> {
    writer: W,
    faults: u64,
}

impl<W: Write> StdSink<W> {
    /// A sink that failed at no call yet.
    pub fn new(writer: W) -> Self
        ensures written { ⟦<StdSink<W> as Sink>⟧.written result ≡ W.contents writer }
        ensures faults { ⟦<StdSink<W> as Sink>⟧.faults result ≡ 0 }
    {
        StdSink { writer, faults: 0 }
    }
}

impl<W: Write> Sink for StdSink<W> {
    ghost written = { λ s. W.contents s.writer };

    ghost faults = { λ s. s.faults };

    fn push(&mut self, piece: &[u8]) -> Push {
        match self.writer.write(piece) {
            Ok(0) | Err(_) => {
                self.faults = self.faults.saturating_add(1);
                Push::Failed
            }
            Ok(count) => Push::Took(count),
        }
    }
}

#[cfg(test)]
mod tests;
