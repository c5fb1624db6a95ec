ghost use Rattle.std.specs.Prelude.{◌≡◌, ℕ, List, [], ◌++◌, IfOk, IfErr, OnOk};
ghost use Rattle.tree_model.specs.View.{SystemView};
ghost use Rattle.command_frame.specs.declared.answer.Ending.TheVariants.{NoMemory};
ghost use Rattle.command_frame.specs.Steps.{IfAnswered, EndsJudged};
ghost use Rattle.trace_commands.specs.inner.Walk.{BeginsWalk, HasWalked, HasTakenTrace, IsAuditUnder, IsUnaudited};
ghost use Rattle.auditor.specs.declared.counted.Counted.{Counted as CountedView};

use auditor::{Audit, Counted};
use command_frame::{Ending, assigned, spelled};
use outside::ByteTaker;
use std::alloc::{AllocError, Global};
use trace_file::TraceCheck;
use tree_model::{Plan, System};

/// What walks over a trace: an audit under the budgets that are assigned, or, where a part has
/// none, a look at the rows alone, while the refusal waits.
#[derive(Drop)]
pub enum Walker<'s> {
    Audits(Plan, Audit<'s>),
    Checks(TraceCheck<'s>, Ending),
}

impl<'s> Walker<'s> {
    /// Before the first byte.
    fn new(alloc: Global, sys: &'s System, counted: Counted) -> Result<Walker<'s>, Ending>
        ensures fresh { IfOk result (HasWalked counted sys.now []) }
        ensures refused { IfErr result (λ stop. stop ≡ NoMemory) }
    {
        match assigned(alloc, sys) {
            Ok(plan) => {
                let audit = Audit::new(alloc, sys, &plan, counted)?;
                Ok(Walker::Audits(plan, audit))
            }
            Err(Ending::NoMemory) => Err(Ending::NoMemory),
            Err(refused) => {
                let check = TraceCheck::new(alloc, sys)?;
                Ok(Walker::Checks(check, refused))
            }
        }
    }

    /// Goes on over the next bytes.
    fn take(&mut self, piece: &[u8]) -> Result<(), AllocError>
        requires { (counted : CountedView) × (sys : SystemView) × (bytes : List ℕ)
            × HasWalked counted sys bytes self.old }
        ensures { (counted : CountedView) (sys : SystemView) (bytes : List ℕ)
            → HasWalked counted sys bytes self.old
            → OnOk result (HasWalked counted sys (bytes ++ piece.now) self.new) }
    {
        match self {
            Walker::Audits(_, audit) => audit.take(piece),
            Walker::Checks(check, _) => check.take(piece),
        }
    }
}

/// A trace that is taken piece by piece.
#[derive(Drop)]
pub struct TraceWalk<'s> {
    sys: &'s System,
    counted: Counted,
    walker: Walker<'s>,
}

impl<'s> TraceWalk<'s> {
    /// Before the first byte, to count this time.
    pub fn new(alloc: Global, sys: &'s System, counted: Counted) -> Result<TraceWalk<'s>, Ending>
        ensures begun { IfOk result (λ walk. BeginsWalk counted sys.now walk) }
        ensures fresh { IfOk result (λ walk. HasTakenTrace walk walk []) }
        ensures refused { IfErr result (λ stop. stop ≡ NoMemory) }
    {
        let walker = Walker::new(alloc, sys, counted)?;
        Ok(TraceWalk {
            sys,
            counted,
            walker,
        })
    }

    /// The budgets and the audit of all bytes. It stops where the trace has a fault, and then where
    /// a part has no budget.
    pub fn audited(self, alloc: Global) -> Result<(Plan, Audit<'s>), Ending>
        requires { (counted : CountedView) × (sys : SystemView) × (bytes : List ℕ)
            × HasWalked counted sys bytes self.walker }
        ensures audited { (counted : CountedView) (sys : SystemView) (bytes : List ℕ)
            → HasWalked counted sys bytes self.entry.walker
            → IfOk result (λ a. IsAuditUnder counted sys bytes a.0 a.1) }
        ensures refused { (counted : CountedView) (sys : SystemView) (bytes : List ℕ)
            → HasWalked counted sys bytes self.entry.walker → IfErr result (λ stop.
            IfAnswered stop (λ a. IsUnaudited sys bytes a.status a.text.items)) }
        ensures judged { IfErr result (λ stop. EndsJudged stop) }
    {
        match self.walker {
            Walker::Audits(plan, audit) => Ok((plan, audit)),
            Walker::Checks(check, refused) => {
                spelled(alloc, check.finish())?;
                Err(refused)
            }
        }
    }
}

impl<'s> ByteTaker for TraceWalk<'s> {
    ghost has_taken = { HasTakenTrace };

    fn take(&mut self, piece: &[u8]) -> Result<(), AllocError> {
        self.walker.take(piece)
    }
}
