ghost use Rattle.std.specs.Prelude.{◌≡◌, ℕ, ◌<◌, ◌++◌, List, [], Option, length, All, IfSome, OnOk};
ghost use Rattle.guest_sched.specs.Spans.{AreSpans, entries_of, run_of};

use crate::Span;
use std::alloc::AllocError;

/// What follows a run as it is made, span by span: its spans themselves, or what is counted of it.
pub trait Follow {
    /// It has followed this run.
    ghost follows: { Self → List (Option ℕ) → Type 0 };

    /// Numbers of it that stay as they are while it follows.
    ghost numbers: { Self → List ℕ };

    /// It takes the spans of this job.
    ghost takes: { Self → ℕ → Type 0 };

    /// Follows the run over one span more.
    fn add(&mut self, span: Span) -> Result<(), AllocError>
        requires some { span.from < span.until }
        requires is_taken { IfSome span.job (λ j. takes self.old j) }
        requires joins { (run : List (Option ℕ)) × (length run ≡ span.from) ×
            follows self.old run }
        ensures followed { OnOk result ((run : List (Option ℕ)) → length run ≡ span.from →
            follows self.old run → follows self.new (run ++ entries_of span)) }
        ensures taken { OnOk result ((j : ℕ) → takes self.old j → takes self.new j) }
        ensures same { OnOk result (numbers self.new ≡ numbers self.old) };
}

/// Lets `follower` follow a run that stands as spans.
pub fn follow_spans<F: Follow>(follower: &mut F, spans: &[Span]) -> Result<(), AllocError>
    requires spans { AreSpans spans.now (length (run_of spans.now)) }
    requires takes { All (λ s. IfSome s.job (λ j. F.takes follower.old j)) spans.now }
    requires begins { F.follows follower.old [] }
    ensures followed { OnOk result (F.follows follower.new (run_of spans.now)) }
    ensures same { OnOk result (F.numbers follower.new ≡ F.numbers follower.old) }
{
    for span in spans {
        follower.add(*span)?;
    }
    Ok(())
}
