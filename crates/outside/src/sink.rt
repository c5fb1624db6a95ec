ghost use Rattle.std.specs.Prelude.{◌≡◌, ℕ, ◌<◌, ◌≤◌, List, length, take, Option, is_some, IfOk, OnOk, OnErr};
ghost use Rattle.std.specs.Io.KnownBytes.{Appends};
ghost use Rattle.outside.specs.Counts.{Rose};

/// Why a sink refused a piece.
#[derive(Clone, Copy, Debug, PartialEq, Eq)]
pub enum SinkFault {
    /// Nothing of the piece was written; `faults` rose.
    Failed,
}

/// Where bytes are written. A sink in memory tells what was written, a real output does not.
pub trait Sink {
    /// The written bytes, where they are told.
    ghost written: { Self → Option (List ℕ) };

    /// How many writes failed.
    ghost faults: { Self → ℕ };

    /// Writes the front of the piece, and answers how many bytes: at least one of a piece that is
    /// not empty.
    fn write(&mut self, piece: &[u8]) -> Result<usize, SinkFault>
        ensures told { is_some (written self.new) ≡ is_some (written self.old) }
        ensures count { IfOk result (λ n. n ≤ length piece.now) }
        ensures some { IfOk result (λ n. 0 < length piece.now → 0 < n) }
        ensures front { IfOk result
            (λ n. Appends (written self.old) (written self.new) (take n piece.now)) }
        ensures nothing { OnErr result (written self.new ≡ written self.old) }
        ensures quiet { OnOk result (faults self.new ≡ faults self.old) }
        ensures failed { OnErr result (Rose (faults self.old) (faults self.new)) }
        ensures faults_last { faults self.old ≤ faults self.new };
}
