ghost use Rattle.std.specs.Prelude.{◌≡◌, ◌≢◌, [], Ok, IfOk, IfErr, OnOk};
ghost use Rattle.outside.specs.Counts.{counts_of};
ghost use Rattle.system_file.specs.SystemFile.{system_of};
ghost use Rattle.rt_report.specs.Fault.{fault_text, IsFault};
ghost use Rattle.command_frame.specs.Answer.{OnSystem};
ghost use Rattle.command_frame.specs.Steps.{IfAnswered, EndsJudged};
ghost use Rattle.command_frame.specs.inner.Steps.{ExplainsStep, FileTakes, StopsAt, IsSpelled, TookHeld};

use crate::Status;
use crate::answer::{Answer, Ending};
use outside::{ByteTaker, ReadFault, Store, read_pieces};
use rt_report::{FileFault, absent_text, fault_text, too_long_text};
use std::alloc::{AllocError, Global};
use system_file::{SystemFault, read_system};
use tree_model::System;

/// The most bytes of a file.
const MOST_BYTES: usize = 67_108_864;

/// Hands the bytes of the file of that name on to the taker, piece by piece. It is the file word
/// `number`, counted from 1. It stops where the file is absent or too long.
#[tactic(auto, using(crate::proofs::Steps::took_held))]
pub fn hand_on<S: Store, T: ByteTaker>(
    alloc: Global,
    store: &mut S,
    name: &str,
    number: u32,
    taker: &mut T,
) -> Result<(), Ending>
    requires { T.has_taken taker.old taker.old [] }
    ensures took { OnOk result
        (TookHeld T.has_taken taker.old taker.new (S.files store.old) name.now) }
    ensures refused { IfErr result (λ stop. IfAnswered stop (λ a.
        StopsAt number (S.files store.old) name.now (λ _ _ _. ⊥) a.status a.text.items)) }
    ensures same_files { S.files store.new ≡ S.files store.old }
    ensures explained { let counts = counts_of S.faults S.absences S.taken in
        ExplainsStep result (counts store.old) (counts store.new) }
    ensures taken { FileTakes result (S.files store.old) name.now
        (S.taken store.old) (S.taken store.new) }
{
    match read_pieces(alloc, store, name, MOST_BYTES, taker) {
        Ok(()) => Ok(()),
        Err(ReadFault::Absent) => Err(Ending::Answered(Answer {
            status: Status::Absent,
            text: absent_text(alloc, number)?,
        })),
        Err(ReadFault::TooLong) => Err(Ending::Answered(Answer {
            status: Status::TooLong,
            text: too_long_text(alloc, number)?,
        })),
        Err(ReadFault::Failed) => Err(Ending::Unread),
        Err(ReadFault::NoMemory) => Err(Ending::NoMemory),
    }
}

/// The system that the file of that name spells, which is the first file word. It stops where the
/// file is absent, too long or refused.
pub fn read_system_file<S: Store>(
    alloc: Global,
    store: &mut S,
    name: &str,
) -> Result<System, Ending>
    ensures spelled { IfOk result (λ sys. IsSpelled (S.files store.old) name.now sys) }
    ensures refused { IfErr result (λ stop. IfAnswered stop (λ a.
        StopsAt 1 (S.files store.old) name.now
        (λ bytes. OnSystem (system_of bytes) (λ _ _ _. ⊥)) a.status a.text.items)) }
    ensures same_files { S.files store.new ≡ S.files store.old }
    ensures explained { let counts = counts_of S.faults S.absences S.taken in
        ExplainsStep result (counts store.old) (counts store.new) }
    ensures taken { FileTakes result (S.files store.old) name.now
        (S.taken store.old) (S.taken store.new) }
{
    let mut bytes = Vec::new(alloc);
    hand_on(alloc, store, name, 1, &mut bytes)?;
    spelled_system(alloc, &bytes)
}

// The system that the bytes of the first file word spell. It stops where they are refused.
fn spelled_system(alloc: Global, bytes: &[u8]) -> Result<System, Ending>
    ensures spelled { IfOk result (λ sys. system_of bytes.now ≡ Ok sys) }
    ensures refused { IfErr result (λ stop. IfAnswered stop (λ a.
        OnSystem (system_of bytes.now) (λ _ _ _. ⊥) a.status a.text.items)) }
    ensures read { IfErr result (λ stop. stop ≢ Ending.Unread) }
{
    match read_system(alloc, bytes) {
        Ok(sys) => Ok(sys),
        Err(SystemFault::NoMemory) => Err(Ending::NoMemory),
        Err(fault) => Err(Ending::Answered(bad_file(alloc, FileFault::System(fault), 1)?)),
    }
}

/// The answer to a fault of the file word `number`, counted from 1.
pub fn bad_file(alloc: Global, fault: FileFault, number: u32) -> Result<Answer, AllocError>
    requires { IsFault fault }
    ensures status { IfOk result (λ a. a.status ≡ Status.BadFile) }
    ensures text { IfOk result (λ a. a.text.items ≡ fault_text fault number) }
{
    Ok(Answer {
        status: Status::BadFile,
        text: fault_text(alloc, &fault, number)?,
    })
}

/// How a command ends whose second file word has a fault.
pub fn second_fault(alloc: Global, fault: FileFault) -> Ending
    requires { IsFault fault }
    ensures status { IfAnswered result (λ a. a.status ≡ Status.BadFile) }
    ensures text { IfAnswered result (λ a. a.text.items ≡ fault_text fault 2) }
    ensures judged { EndsJudged result }
{
    match bad_file(alloc, fault, 2) {
        Ok(answer) => Ending::Answered(answer),
        Err(_) => Ending::NoMemory,
    }
}
