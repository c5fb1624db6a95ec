ghost use Rattle.std.specs.Prelude.{◌≡◌, ◌≤◌, ◌<◌, length, take, None, IfSome, IfOk, OnOk, OnErr};
ghost use Rattle.std.specs.Io.KnownBytes.{Appends};
ghost use Rattle.outside.specs.Counts.{raised};

use crate::{Sink, SinkFault};
use std::io::Write;
use std::marker::Model;

/// A writer of the system, as standard output. Each write is flushed. It tells nothing, since a
/// write whose flush fails is refused; `write` says of its own what a writer that tells then holds.
#[derive(Drop)]
pub struct StdoutSink<W: Write> {
    out: W,
    faults: u64,
}

impl<W: Write> Model for StdoutSink<W> {
    ghost use Rattle.outside.specs.Real.{WriterCounts};

    ghost Value = { WriterCounts };

    ghost view = { λ s. record {
      contents = W.contents s.out;
      faults = s.faults;
    } };
}

impl<W: Write> StdoutSink<W> {
    /// A sink over the writer.
    pub fn new(out: W) -> StdoutSink<W>
        ensures { result ≡ record { contents = W.contents out; faults = 0 } }
    {
        StdoutSink { out, faults: 0 }
    }
}

impl<W: Write> Sink for StdoutSink<W> {
    ghost written = { λ s. None };

    ghost faults = { λ s. s.faults };

    fn write(&mut self, piece: &[u8]) -> Result<usize, SinkFault>
        ensures count { IfOk result (λ n. n ≤ length piece.now) }
        ensures some { IfOk result (λ n. 0 < length piece.now → 0 < n) }
        ensures front { IfOk result
            (λ n. Appends self.old.contents self.new.contents (take n piece.now)) }
        ensures quiet { OnOk result (self.new.faults ≡ self.old.faults) }
        ensures failed { OnErr result (self.new.faults ≡ raised self.old.faults 1) }
        ensures faults_last { self.old.faults ≤ self.new.faults }
    {
        match write_front(&mut self.out, piece) {
            Some(count) => Ok(count),
            None => {
                self.faults = self.faults.saturating_add(1);
                Err(SinkFault::Failed)
            }
        }
    }
}

// Writes the front of the piece and flushes it. None where that fails, or takes nothing of a piece
// that is not empty.
fn write_front<W: Write>(out: &mut W, piece: &[u8]) -> Option<usize>
    ensures count { IfSome result (λ n. (n ≤ length piece.now) × (0 < length piece.now → 0 < n)) }
    ensures front { IfSome result
        (λ n. Appends (W.contents out.old) (W.contents out.new) (take n piece.now)) }
{
    let count = out.write(piece).ok()?;
    if count == 0 && !piece.is_empty() {
        return None;
    }
    out.flush().ok()?;
    Some(count)
}
