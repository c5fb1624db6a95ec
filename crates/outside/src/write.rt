ghost use Rattle.std.specs.Prelude.{◌≡◌, ◌≤◌, is_some, OnOk, OnErr};
ghost use Rattle.std.specs.Io.KnownBytes.{Appends};
ghost use Rattle.outside.specs.Counts.{Rose};
ghost use Rattle.outside.specs.Written.{AppendsProperPrefix};

use crate::Sink;

/// Why not all bytes were written.
#[derive(Clone, Copy, Debug, PartialEq, Eq)]
pub enum WriteFault {
    /// The sink failed; its `faults` rose.
    Failed,
}

/// Writes all bytes, or stops at the first write that fails.
pub fn write_all<K: Sink>(sink: &mut K, bytes: &[u8]) -> Result<(), WriteFault>
    ensures told { is_some (K.written sink.new) ≡ is_some (K.written sink.old) }
    ensures whole { OnOk result (Appends (K.written sink.old) (K.written sink.new) bytes.now) }
    ensures quiet { OnOk result (K.faults sink.new ≡ K.faults sink.old) }
    ensures front { OnErr result
        (AppendsProperPrefix (K.written sink.old) (K.written sink.new) bytes.now) }
    ensures failed { OnErr result (Rose (K.faults sink.old) (K.faults sink.new)) }
    ensures faults_last { K.faults sink.old ≤ K.faults sink.new }
{
    let mut written = 0;
    while written < bytes.len() {
        match sink.write(&bytes[written..]) {
            Ok(count) => written += count,
            Err(_) => return Err(WriteFault::Failed),
        }
    }
    Ok(())
}
