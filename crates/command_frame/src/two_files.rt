ghost use Rattle.std.specs.Prelude.{◌≡◌, ◌≤◌, List, [], ◌∷◌, ℕ, length, Some, IfOk, IfErr};
ghost use Rattle.outside.specs.Counts.{counts_of};
ghost use Rattle.outside.specs.Files.{Files, file_named};
ghost use Rattle.tree_model.specs.View.{SystemView};
ghost use Rattle.tree_model.specs.System.{IsSystem};
ghost use Rattle.command_frame.specs.declared.answer.Ending.TheVariants.{NoMemory};
ghost use Rattle.command_frame.specs.Answer.{Saying, file_limit};
ghost use Rattle.command_frame.specs.TwoFiles.{OnTwoFiles};
ghost use Rattle.command_frame.specs.Reading.{read_in};
ghost use Rattle.command_frame.specs.Steps.{ending_of, IfAnswered, Explains, NamesTake, IsSaidOver, HasTaken, EndsJudged};
ghost use Rattle.command_frame.specs.inner.Steps.{ExplainsStep, StepTakes, FileTakes, IsSpelled, HasTakenFile, StopsAt, AnswersTwo};

use crate::answer::{Answer, Ending};
use crate::file::{hand_on, read_system_file};
use outside::{ByteTaker, Store};
use std::alloc::Global;
use tree_model::System;

/// What a command over a system file and a second file makes of the system and the second file's
/// bytes, which are handed on to it piece by piece, as they are read.
pub trait JudgePieces<'s> {
    /// What takes the bytes of the second file.
    type Taker: ByteTaker + Drop;

    ghost says: { Self → SystemView → Saying };

    /// Which takers begin with a system.
    ghost begins: { Self → SystemView → Self.Taker → Type 0 };

    /// The taker, before the first byte. The second file was not opened yet, so what there is to
    /// answer to the system alone waits for the end.
    fn begin(&self, alloc: Global, sys: &'s System) -> Result<Self::Taker, Ending>
        requires { IsSystem sys.now }
        ensures begun { IfOk result (λ taker. begins self.now sys.now taker) }
        ensures fresh { IfOk result (λ taker. Self.Taker.has_taken taker taker []) }
        ensures refused { IfErr result (λ stop. stop ≡ NoMemory) };

    /// The answer to a system and all bytes.
    fn end(&self, alloc: Global, sys: &System, taker: Self::Taker) -> Result<Answer, Ending>
        requires system { IsSystem sys.now }
        requires taken { (bytes : List ℕ)
            × HasTaken (begins self.now sys.now) Self.Taker.has_taken bytes taker }
        ensures answer { (bytes : List ℕ)
            → HasTaken (begins self.now sys.now) Self.Taker.has_taken bytes taker
            → IfAnswered (ending_of result)
            (λ a. says self.now sys.now bytes a.status a.text.items) }
        ensures judged { EndsJudged (ending_of result) };
}

/// The answer of a command over a system file and a second file, of which a piece is kept at a
/// time. The system stands in the room.
pub fn over_pieces<'s, S: Store, J: JudgePieces<'s>>(
    alloc: Global,
    store: &mut S,
    first: &str,
    second: &str,
    judge: &J,
    room: &'s mut Option<System>,
) -> Result<Answer, Ending>
    ensures answer { IfAnswered (ending_of result) (λ a.
        IsSaidOver (first.now ∷ second.now ∷ [])
        (λ contents. OnTwoFiles contents (J.says judge.now))
        (S.files store.old) a.status a.text.items) }
    ensures explained { let counts = counts_of S.faults S.absences S.taken in
        Explains (ending_of result) (counts store.old) (counts store.new) }
    ensures same_files { S.files store.new ≡ S.files store.old }
    ensures taken { NamesTake (first.now ∷ second.now ∷ []) (S.files store.old)
        (ending_of result) (S.taken store.old) (S.taken store.new) }
{
    let (sys, taker) = take_two(alloc, store, first, second, judge, room)?;
    judge.end(alloc, sys, taker)
}

/// The system of the first file word, and what took the bytes of the second. It stops where the
/// first is absent, too long or refused, and then where the second is absent or too long.
fn take_two<'s, S: Store, J: JudgePieces<'s>>(
    alloc: Global,
    store: &mut S,
    first: &str,
    second: &str,
    judge: &J,
    room: &'s mut Option<System>,
) -> Result<(&'s System, J::Taker), Ending>
    ensures system { IfOk result
        (λ read. IsSpelled (S.files store.old) first.now read.0.now) }
    ensures second { IfOk result (λ read. HasTakenFile (J.begins judge.now read.0.now)
        J.Taker.has_taken (S.files store.old) second.now read.1) }
    ensures refused { IfErr result (λ stop. IfAnswered stop (λ a.
        AnswersTwo (S.files store.old) first.now second.now (λ _ _ _ _. ⊥)
        a.status a.text.items)) }
    ensures explained { let counts = counts_of S.faults S.absences S.taken in
        ExplainsStep result (counts store.old) (counts store.new) }
    ensures same_files { S.files store.new ≡ S.files store.old }
    ensures taken { (files : Files) → S.files store.old ≡ Some files
        → StepTakes result
        (read_in (file_named first.now files ∷ file_named second.now files ∷ []))
        (S.taken store.old) (S.taken store.new) }
{
    let sys = read_system_file(alloc, store, first)?;
    let kept: &'s System = room.insert(sys);
    let taker = take_second(alloc, store, second, judge, kept)?;
    Ok((kept, taker))
}

/// What took the bytes of the second file word. It stops where that is absent or too long.
fn take_second<'s, S: Store, J: JudgePieces<'s>>(
    alloc: Global,
    store: &mut S,
    second: &str,
    judge: &J,
    sys: &'s System,
) -> Result<J::Taker, Ending>
    requires { IsSystem sys.now }
    ensures second { IfOk result (HasTakenFile (J.begins judge.now sys.now)
        J.Taker.has_taken (S.files store.old) second.now) }
    ensures refused { IfErr result (λ stop. IfAnswered stop (λ a.
        StopsAt 2 (S.files store.old) second.now (λ _ _ _. ⊥) a.status a.text.items)) }
    ensures explained { let counts = counts_of S.faults S.absences S.taken in
        ExplainsStep result (counts store.old) (counts store.new) }
    ensures same_files { S.files store.new ≡ S.files store.old }
    ensures taken { FileTakes result (S.files store.old) second.now
        (S.taken store.old) (S.taken store.new) }
{
    let mut taker = judge.begin(alloc, sys)?;
    hand_on(alloc, store, second, 2, &mut taker)?;
    Ok(taker)
}

/// What a command over a system file and a second file makes of the system and all of the second
/// file's bytes at once.
pub trait JudgeTwo {
    ghost says: { Self → SystemView → Saying };

    /// The answer to a system and bytes.
    fn judge(&self, alloc: Global, sys: &System, bytes: &[u8]) -> Result<Answer, Ending>
        requires system { IsSystem sys.now }
        requires short { length bytes.now ≤ file_limit }
        ensures answer { IfAnswered (ending_of result)
            (λ a. says self.now sys.now bytes.now a.status a.text.items) }
        ensures judged { EndsJudged (ending_of result) };
}

/// The answer of a command over a system file and a second file.
pub fn over_two<S: Store, J: JudgeTwo>(
    alloc: Global,
    store: &mut S,
    first: &str,
    second: &str,
    judge: &J,
) -> Result<Answer, Ending>
    ensures answer { IfAnswered (ending_of result) (λ a.
        IsSaidOver (first.now ∷ second.now ∷ [])
        (λ contents. OnTwoFiles contents (J.says judge.now))
        (S.files store.old) a.status a.text.items) }
    ensures explained { let counts = counts_of S.faults S.absences S.taken in
        Explains (ending_of result) (counts store.old) (counts store.new) }
    ensures same_files { S.files store.new ≡ S.files store.old }
    ensures taken { NamesTake (first.now ∷ second.now ∷ []) (S.files store.old)
        (ending_of result) (S.taken store.old) (S.taken store.new) }
{
    over_pieces(alloc, store, first, second, &Whole { judge }, &mut None)
}

/// A judge that is asked once all bytes are there.
#[derive(Drop)]
struct Whole<'j, J> {
    judge: &'j J,
}

impl<'s, 'j, J: JudgeTwo> JudgePieces<'s> for Whole<'j, J> {
    ghost use Rattle.std.specs.Prelude.{◌≡◌, []};

    type Taker = Vec<u8>;

    ghost says = { λ s. J.says s.judge.now };

    ghost begins = { λ s sys bytes. bytes.items ≡ [] };

    fn begin(&self, alloc: Global, _sys: &'s System) -> Result<Vec<u8>, Ending> {
        Ok(Vec::new(alloc))
    }

    fn end(&self, alloc: Global, sys: &System, bytes: Vec<u8>) -> Result<Answer, Ending> {
        self.judge.judge(alloc, sys, &bytes)
    }
}
