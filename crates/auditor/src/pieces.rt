use crate::steal::{Stolen, stolen_of};
use crate::verdict::{Tallied, both_of, finding};
use crate::watches::Watches;
use crate::{Counted, Finding};
use std::alloc::{AllocError, Global};
use trace_file::{Event, EventWatcher, Rows, TraceFault, TraceFeed};
use tree_model::{Plan, System};

/// What the VCPUs did up to some event, beside the budgets on which they may count.
#[derive(Drop)]
struct Watcher {
    plan: Plan,
    watches: Watches,
}

impl EventWatcher for Watcher {
    ghost use Rattle.auditor.specs.Pieces.{HasSeen};

    ghost has_seen = { λ sys start now events. HasSeen sys start now events };

    #[inline(always)]
    fn see(&mut self, sys: &System, rows: &Rows, event: Event) -> Result<(), AllocError> {
        self.watches.take(sys, &self.plan, rows, event);
        Ok(())
    }
}

/// Audits the text of a trace piece by piece, in pieces of any lengths. No event is kept, and of
/// the text no more than `csv_rows::RecordFeed` keeps.
#[derive(Drop)]
pub struct Audit<'s> {
    sys: &'s System,
    feed: TraceFeed<'s, Watcher>,
}

impl<'s> Audit<'s> {
    ghost use Rattle.std.specs.Prelude.{◌≡◌, ◌⊎◌, ◌++◌, [], ℕ, List, OnOk, IfOk, IfErr};
    ghost use Rattle.csv_rows.specs.Reading.{records_of};
    ghost use Rattle.tree_model.specs.View.{SystemView};
    ghost use Rattle.tree_model.specs.Plans.{IsPlan};
    ghost use Rattle.trace_file.specs.declared.fault.TraceFault.TheVariants.{NoMemory};
    ghost use Rattle.trace_file.specs.File.{IsFileFault, rows_of};
    ghost use Rattle.auditor.specs.Finding.{IsFindingOf};
    ghost use Rattle.auditor.specs.Tally.{IsTalliedOf};
    ghost use Rattle.auditor.specs.Steal.{IsStolenOf};
    ghost use Rattle.auditor.specs.declared.counted.Counted.{Counted as CountedView};
    ghost use Rattle.auditor.specs.declared.counted.Counted.TheVariants.{Core, Stolen as ByStolen};
    ghost use Rattle.auditor.specs.Pieces.{HasAudited};

    /// Before the first byte, to count this time. The budgets of the plan are copied.
    pub fn new(
        alloc: Global,
        sys: &'s System,
        plan: &Plan,
        counted: Counted,
    ) -> Result<Audit<'s>, AllocError>
        requires { IsPlan sys.now plan.now }
        ensures { IfOk result (HasAudited counted sys.now plan.now []) }
    {
        let plan = Plan {
            budgets: Vec::from_slice(alloc, plan.budgets())?,
        };
        let watches = Watches::new(sys, counted);
        let watcher = Watcher { plan, watches };
        let feed = TraceFeed::new(alloc, sys, watcher)?;
        Ok(Audit { sys, feed })
    }

    /// Takes the next bytes of the text.
    pub fn take(&mut self, piece: &[u8]) -> Result<(), AllocError>
        requires { (counted : CountedView) × (sys : SystemView) × (budgets text : List ℕ)
            × HasAudited counted sys budgets text self.old }
        ensures { (counted : CountedView) (sys : SystemView) (budgets text : List ℕ)
            → HasAudited counted sys budgets text self.old
            → OnOk result (HasAudited counted sys budgets (text ++ piece.now) self.new) }
    {
        self.feed.take(piece)
    }

    /// What `audit` answers of the events of the whole text, or the first rule that the text
    /// breaks, with its row.
    pub fn finish(self) -> Result<Finding, TraceFault>
        requires { (sys : SystemView) × (budgets text : List ℕ)
            × HasAudited Core sys budgets text self }
        ensures found { (sys : SystemView) (budgets text : List ℕ)
            → HasAudited Core sys budgets text self.entry
            → IfOk result (IsFindingOf sys budgets text) }
        ensures fault { (sys : SystemView) (budgets text : List ℕ)
            → HasAudited Core sys budgets text self.entry
            → IfErr result (λ fault. (fault ≡ NoMemory)
            ⊎ IsFileFault sys (rows_of (records_of text)) fault) }
    {
        let sys = self.sys;
        match self.feed.finish() {
            Ok(w) => Ok(finding(sys, &w.rows, &w.watcher.watches)),
            Err(fault) => Err(fault),
        }
    }

    /// What `finish` answers, with the tallies of the VCPUs. The same walk makes both.
    pub fn finish_tallied(self, alloc: Global) -> Result<Tallied, TraceFault>
        requires { (sys : SystemView) × (budgets text : List ℕ)
            × HasAudited Core sys budgets text self }
        ensures tallied { (sys : SystemView) (budgets text : List ℕ)
            → HasAudited Core sys budgets text self.entry
            → IfOk result (λ t. IsTalliedOf sys budgets text t.finding t.vcpus.items) }
        ensures fault { (sys : SystemView) (budgets text : List ℕ)
            → HasAudited Core sys budgets text self.entry
            → IfErr result (λ fault. (fault ≡ NoMemory)
            ⊎ IsFileFault sys (rows_of (records_of text)) fault) }
    {
        let sys = self.sys;
        match self.feed.finish() {
            Ok(w) => both_of(alloc, sys, &w.rows, &w.watcher.watches),
            Err(fault) => Err(fault),
        }
    }

    /// What is found and counted of the time that is stolen from the VCPUs in the whole text, or
    /// the first rule that the text breaks, with its row.
    pub fn finish_stolen(self, alloc: Global) -> Result<Stolen, TraceFault>
        requires { (sys : SystemView) × (budgets text : List ℕ)
            × HasAudited ByStolen sys budgets text self }
        ensures stolen { (sys : SystemView) (budgets text : List ℕ)
            → HasAudited ByStolen sys budgets text self.entry
            → IfOk result (λ t. IsStolenOf sys budgets text t.finding t.vcpus.items) }
        ensures fault { (sys : SystemView) (budgets text : List ℕ)
            → HasAudited ByStolen sys budgets text self.entry
            → IfErr result (λ fault. (fault ≡ NoMemory)
            ⊎ IsFileFault sys (rows_of (records_of text)) fault) }
    {
        let sys = self.sys;
        match self.feed.finish() {
            Ok(w) => stolen_of(alloc, sys, &w.rows, &w.watcher.watches),
            Err(fault) => Err(fault),
        }
    }
}
