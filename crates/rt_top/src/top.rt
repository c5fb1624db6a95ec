ghost use Rattle.std.specs.Prelude.{◌≡◌, ◌≢◌, ◌⊎◌, map, string_bytes, Some, None};
ghost use Rattle.std.specs.Io.KnownBytes.{Appends};
ghost use Rattle.outside.specs.Counts.{Rose, RoseBeyond};
ghost use Rattle.outside.specs.Files.{Files};
ghost use Rattle.outside.specs.Written.{AppendsProperPrefix};
ghost use Rattle.command_line.specs.Commands.{command_of};
ghost use Rattle.rt_top.specs.Report.{Reported, HasOneAnswer};
ghost use Rattle.rt_top.specs.Causes.{HasNoAbsence, IsJudgeable, IsVerdictOf, Stays};
ghost use Rattle.command_line.specs.Reading.{bytes_to_read, NamesNoFile};
ghost use Rattle.rt_top.specs.Reading.{Takes, EndsWithoutFile};

use crate::Status;
use command_frame::Ending;
use command_line::{answer, parse};
use outside::{Sink, Store, write_all};
use std::alloc::Global;

/// Answers the words: reads the files that they name, writes the whole text of the answer to
/// `out`, and gives its status. Nothing is written before the text is complete.
pub fn run<S: Store, K: Sink>(alloc: Global, words: &[String], store: &mut S, out: &mut K) -> Status
    // for this command over these files, the status and the text are the answer, they mean what its
    // yes and no mean, and the text is written, or a proper front of it, or nothing
    ensures reported { let command = command_of (map string_bytes words.now) in
        Reported command (S.files store.old) result (K.written out.old) (K.written out.new) }
    ensures usage { result ≡ Status.Usage → command_of (map string_bytes words.now) ≡ None }
    // over told files no other status and no other text would answer
    ensures only { (files : Files) → HasOneAnswer (command_of (map string_bytes words.now)) files }

    // why, over any store and sink
    ensures quiet_faults { result ≢ Status.ReadFault → S.faults store.new ≡ S.faults store.old }
    ensures quiet_absences { HasNoAbsence result → S.absences store.new ≡ S.absences store.old }
    ensures quiet_writes { result ≢ Status.WriteFault → K.faults out.new ≡ K.faults out.old }
    ensures absent { result ≡ Status.Absent → Rose (S.absences store.old) (S.absences store.new) }
    ensures read_fault { result ≡ Status.ReadFault
        → Rose (S.faults store.old) (S.faults store.new) }
    ensures too_long { result ≡ Status.TooLong
        → RoseBeyond 67108864 (S.taken store.old) (S.taken store.new) }
    ensures write_fault { result ≡ Status.WriteFault → Rose (K.faults out.old) (K.faults out.new) }
    // no file is changed
    ensures same_files { S.files store.new ≡ S.files store.old }
    // words that name no file leave the store as it was, whatever it would refuse
    ensures untouched { NamesNoFile (command_of (map string_bytes words.now))
        → store.new ≡ store.old }
    ensures without_file { EndsWithoutFile (command_of (map string_bytes words.now)) result }
    // where the files are told: just these bytes of them are taken, so none of the second where the
    // first is refused; and no more, where a read failed or memory ran out
    ensures taken { let command = command_of (map string_bytes words.now) in
        (files : Files) → S.files store.old ≡ Some files
        → Takes result (bytes_to_read command files) (S.taken store.old) (S.taken store.new) }
    // files that can be judged, over a store and a sink that do not fail, get their verdict, or are
    // refused for what the command alone asks, as a core that is full and under earliest deadline
    // first, or a leaf of the name
    ensures complete { let command = command_of (map string_bytes words.now) in
        (can : IsJudgeable command (S.files store.old))
        → Stays (S.faults store.old) (S.faults store.new)
        → Stays (K.faults out.old) (K.faults out.new)
        → IsVerdictOf can result }
{
    match answer(alloc, parse(words), store) {
        Ending::Answered(answer) => finish(out, answer.status, &answer.text),
        Ending::Unread => Status::ReadFault,
        Ending::NoMemory => Status::NoMemory,
    }
}

// Writes the whole text of an answer and gives its status.
fn finish<K: Sink>(out: &mut K, status: Status, text: &[u8]) -> Status
    ensures which { (result ≡ status) ⊎ (result ≡ Status.WriteFault) }
    ensures whole { status ≢ Status.WriteFault → result ≡ status
        → Appends (K.written out.old) (K.written out.new) text.now }
    ensures quiet { status ≢ Status.WriteFault → result ≡ status
        → K.faults out.new ≡ K.faults out.old }
    ensures front { status ≢ Status.WriteFault → result ≡ Status.WriteFault
        → AppendsProperPrefix (K.written out.old) (K.written out.new) text.now }
    ensures failed { status ≢ Status.WriteFault → result ≡ Status.WriteFault
        → Rose (K.faults out.old) (K.faults out.new) }
{
    match write_all(out, text) {
        Ok(()) => status,
        Err(_) => Status::WriteFault,
    }
}
