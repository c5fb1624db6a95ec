ghost use Rattle.std.specs.Prelude.{◌≡◌, ◌≤◌, ◌<◌, if◌then◌else◌, [], ◌∷◌, ◌++◌, OnOk};
ghost use Rattle.slot_model.specs.declared.task.TheConstants.{LIMIT};
ghost use Rattle.tree_model.specs.declared.system.TheConstants.{MAX_CORES};
ghost use Rattle.rtds_trace.specs.Printed.{on_at, stays, going_to};

use crate::host_core::HostCore;
use crate::moment::moment_of_slot;
use slot_model::LIMIT;
use std::alloc::AllocError;
use trace_file::{Event, What};

/// Whether the VCPU that has a core keeps it, or none has it before and after.
#[inline(always)]
fn stays(holder: Option<u32>, next: Option<u32>) -> bool
    ensures { result ≡ stays holder next }
{
    match (holder, next) {
        (None, None) => true,
        (Some(u), Some(v)) => u == v,
        (Some(_), None) | (None, Some(_)) => false,
    }
}

/// Tells a switch of core `core` at slot `at` to a VCPU, by its part, or to none, but where it
/// stays. Which of both it is can hardly be foretold, so the event is added before that is asked.
#[inline(always)]
fn tell_switch(
    told: &mut Vec<Event>,
    core: usize,
    at: u64,
    next: Option<u32>,
    stays: bool,
) -> Result<(), AllocError>
    requires few { core < MAX_CORES }
    requires in_limit { at ≤ LIMIT }
    ensures { OnOk result (told.new.items
        ≡ (if stays then told.old.items
        else told.old.items ++ on_at core at (going_to next) ∷ [])) }
{
    let what = match next {
        Some(part) => What::Run(part),
        None => What::Stop,
    };
    told.push(Event {
        at: moment_of_slot(at),
        core: core as u32,
        what,
    })?;
    told.truncate(told.len() - stays as usize);
    Ok(())
}

impl HostCore {
    ghost use Rattle.std.specs.Prelude.{◌≡◌, ℕ, suc, ◌≤◌, ◌<◌, ◌+◌, ◌-◌, List, Option, Some, length, OnOk};
    ghost use Rattle.slot_model.specs.Run.{holds};
    ghost use Rattle.slot_model.specs.declared.task.TheConstants.{LIMIT};
    ghost use Rattle.tree_model.specs.declared.system.TheConstants.{MAX_CORES};
    ghost use Rattle.tree_model.specs.View.{SystemView};
    ghost use Rattle.tree_model.specs.Plans.{IsPlan};
    ghost use Rattle.release_file.specs.declared.workload.Wake.{Wake as RowView};
    ghost use Rattle.rtds_trace.specs.Printed.{push_some, on_core_at, switch_to};
    ghost use Rattle.rtds_queues.specs.Accounts.{account_at, begun};
    ghost use Rattle.rtds_queues.specs.Vcpus.{HavePeriods, IsChoice, IsFirstEnd, NoEndBefore};
    ghost use Rattle.rtds_sim.specs.inner.Accounts.{part_of, gone_on, used_more, IsReady};
    ghost use Rattle.rtds_sim.specs.inner.Running.{IsUnderway, HasRun};

    /// Runs core `core` by itself from slot `from` to a later one, before which no row comes, and
    /// tells its switches.
    #[inline(never)]
    pub fn run_to(
        &mut self,
        core: usize,
        from: u64,
        to: u64,
        told: &mut Vec<Event>,
    ) -> Result<(), AllocError>
        requires few { core < MAX_CORES }
        requires ready { IsReady from self.old }
        requires later { from < to }
        requires in_limit { to ≤ LIMIT }
        ensures ready { OnOk result (IsReady to self.new) }
        ensures run { OnOk result ((sys : SystemView) (budgets : List ℕ) (rows : List RowView)
            (n k : ℕ) (run : List (Option ℕ)) → IsPlan sys budgets →
            IsUnderway sys budgets rows n core run from to k self.old →
            HasRun sys budgets rows core run from to k self.new told.old.items
            told.new.items) }
    {
        let mut at = from;
        let mut end = self.vcpus.first_end();
        while at < to {
            self.switch(core, at, told)?;
            let next = self.next_change(at, to.min(end));
            end = self.bring(at, next, end);
            at = next;
        }
        Ok(())
    }

    /// The part of the system that has the core, if one has it.
    fn part_of(&self, holder: Option<u32>) -> Option<u32>
        requires { (v : ℕ) → holder ≡ Some v → v < length self.now.vcpus }
        ensures { result ≡ part_of self.now.vcpus holder }
    {
        match holder {
            Some(v) => Some(self.vcpus.account(v).part),
            None => None,
        }
    }

    /// Gives the core to the VCPU that goes first at slot `at`, and tells it where that is another
    /// one.
    fn switch(&mut self, core: usize, at: u64, told: &mut Vec<Event>) -> Result<(), AllocError>
        requires few { core < MAX_CORES }
        requires ready { IsReady at self.old }
        requires in_limit { at ≤ LIMIT }
        ensures ready { OnOk result (IsReady at self.new) }
        ensures chosen { OnOk result (IsChoice self.old.vcpus self.new.holder) }
        ensures told { OnOk result (told.new.items ≡ push_some told.old.items (on_core_at core at
            (switch_to (part_of self.old.vcpus self.old.holder)
            (part_of self.old.vcpus self.new.holder)))) }
        ensures vcpus { OnOk result (self.new.vcpus ≡ self.old.vcpus) }
    {
        let next = self.vcpus.first_of();
        let stays = stays(self.holder, next);
        self.holder = next;
        tell_switch(told, core, at, self.part_of(next), stays)
    }

    /// The slot at which something may change next: its VCPU has had its budget once more, or slot
    /// `to` has come.
    fn next_change(&self, at: u64, to: u64) -> u64
        requires holder { (v : ℕ) → self.now.holder ≡ Some v → v < length self.now.vcpus }
        requires some_left { (v : ℕ) → self.now.holder ≡ Some v
            → 1 ≤ (account_at self.now.vcpus v).left }
        requires in_time { at < to }
        ensures in_time { result ≤ to }
        ensures budget { (v : ℕ) → self.now.holder ≡ Some v
            → result ≤ at + (account_at self.now.vcpus v).left }
        ensures later { at < result }
    {
        match self.holder {
            Some(v) => at + self.vcpus.account(v).left.min(to - at),
            None => to,
        }
    }

    /// Brings the accounts from slot `from` to a later one, before which nothing changes, where the
    /// first period ends at slot `end`. Returns where the first one ends then.
    fn bring(&mut self, from: u64, to: u64, end: u64) -> u64
        requires ready { IsReady from self.old }
        requires later { from < to }
        requires in_limit { to ≤ LIMIT }
        requires first { IsFirstEnd self.old.vcpus end }
        requires ends { to ≤ end }
        ensures ready { IsReady to self.new }
        ensures one_each { length self.new.vcpus ≡ length self.old.vcpus }
        ensures gone { (v : ℕ) → v < length self.old.vcpus → account_at self.new.vcpus v
            ≡ gone_on (account_at self.old.vcpus v) (holds self.old.holder v) (to - from) to }
        ensures holder { self.new.holder ≡ self.old.holder }
        ensures first { IsFirstEnd self.new.vcpus result }
    {
        self.use_slots(to - from);
        self.begin_periods(to, end)
    }

    /// Begins the periods that begin at slot `at`, where the first one ends at slot `end`. Returns
    /// where the first one ends then, which is looked up only where one begins.
    fn begin_periods(&mut self, at: u64, end: u64) -> u64
        requires in_limit { at ≤ LIMIT }
        requires periods { HavePeriods self.old.vcpus }
        requires first { IsFirstEnd self.old.vcpus end }
        requires ends { at ≤ end }
        ensures one_each { length self.new.vcpus ≡ length self.old.vcpus }
        ensures begun { (v : ℕ) → v < length self.old.vcpus
            → account_at self.new.vcpus v ≡ begun (account_at self.old.vcpus v) at }
        ensures ends { NoEndBefore self.new.vcpus (suc at) }
        ensures holder { self.new.holder ≡ self.old.holder }
        ensures first { IsFirstEnd self.new.vcpus result }
    {
        if at < end {
            return end;
        }
        self.vcpus.begin_periods(at);
        self.vcpus.first_end()
    }

    /// Counts some slots, which the VCPU of the core had.
    fn use_slots(&mut self, slots: u64)
        requires holder { (v : ℕ) → self.old.holder ≡ Some v → v < length self.old.vcpus }
        requires few { (v : ℕ) → self.old.holder ≡ Some v
            → (account_at self.old.vcpus v).level ≤ LIMIT }
        ensures one_each { length self.new.vcpus ≡ length self.old.vcpus }
        ensures used { (v : ℕ) → v < length self.old.vcpus → account_at self.new.vcpus v
            ≡ used_more (account_at self.old.vcpus v) (holds self.old.holder v) slots }
        ensures holder { self.new.holder ≡ self.old.holder }
    {
        if let Some(v) = self.holder {
            self.vcpus.use_slots(v, slots);
        }
    }
}
