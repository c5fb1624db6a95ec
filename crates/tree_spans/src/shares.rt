ghost use Rattle.std.specs.Prelude.{◌<◌, length, map, IfOk};
ghost use Rattle.slot_model.specs.Miss.{AreNamed, HoldsReleased};
ghost use Rattle.slot_model.specs.Task.{sporadic_tasks};
ghost use Rattle.guest_sched.specs.Spans.{AreSpans, run_of};
ghost use Rattle.tree_spans.specs.Shares.{AreShares};

use guest_sched::{Span, Window, add_window};
use slot_model::{Job, Task};
use std::alloc::{AllocError, Global};

/// For each task the windows in which a run holds its jobs.
pub(crate) fn shares_of(
    alloc: Global,
    tasks: &[Task],
    jobs: &[Job],
    spans: &[Span],
) -> Result<Vec<Vec<Window>>, AllocError>
    requires named { AreNamed (sporadic_tasks tasks.now) jobs.now }
    requires released { HoldsReleased jobs.now (run_of spans.now) }
    requires spans { AreSpans spans.now (length (run_of spans.now)) }
    ensures { let run = run_of spans.now in
        IfOk result (λ shares. AreShares jobs.now run (length run) (length tasks.now)
        (map (λ s. s.items) shares.items)) }
{
    let mut shares = Vec::new(alloc);
    for _ in 0..tasks.len() {
        shares.push(Vec::new(alloc))?;
    }
    for span in spans {
        if let Some(job) = span.job {
            let task = jobs[job as usize].task as usize;
            add_window(&mut shares[task], span.from, span.until)?;
        }
    }
    Ok(shares)
}
