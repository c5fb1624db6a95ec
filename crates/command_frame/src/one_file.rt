ghost use Rattle.std.specs.Prelude.{◌≡◌, List, [], ◌∷◌, ℕ};
ghost use Rattle.outside.specs.Counts.{counts_of};
ghost use Rattle.tree_model.specs.View.{SystemView};
ghost use Rattle.tree_model.specs.System.{IsSystem};
ghost use Rattle.command_frame.specs.declared.status.Status.{Status};
ghost use Rattle.command_frame.specs.Answer.{OnOneFile};
ghost use Rattle.command_frame.specs.Steps.{ending_of, IfAnswered, Explains, NamesTake, IsSaidOver, EndsJudged};

use crate::answer::{Answer, Ending};
use crate::file::read_system_file;
use outside::Store;
use std::alloc::Global;
use tree_model::System;

/// What a command over a system file makes of its system.
pub trait JudgeOne {
    ghost says: { Self → SystemView → Status → List ℕ → Type 0 };

    /// The answer to a system.
    fn judge(&self, alloc: Global, sys: &System) -> Result<Answer, Ending>
        requires { IsSystem sys.now }
        ensures answer { IfAnswered (ending_of result)
            (λ a. says self.now sys.now a.status a.text.items) }
        ensures judged { EndsJudged (ending_of result) };
}

/// The answer of a command over a system file.
pub fn over_one<S: Store, J: JudgeOne>(
    alloc: Global,
    store: &mut S,
    file: &str,
    judge: &J,
) -> Result<Answer, Ending>
    ensures answer { IfAnswered (ending_of result) (λ a.
        IsSaidOver (file.now ∷ []) (λ contents. OnOneFile contents (J.says judge.now))
        (S.files store.old) a.status a.text.items) }
    ensures explained { let counts = counts_of S.faults S.absences S.taken in
        Explains (ending_of result) (counts store.old) (counts store.new) }
    ensures same_files { S.files store.new ≡ S.files store.old }
    ensures taken { NamesTake (file.now ∷ []) (S.files store.old)
        (ending_of result) (S.taken store.old) (S.taken store.new) }
{
    let sys = read_system_file(alloc, store, file)?;
    judge.judge(alloc, &sys)
}
