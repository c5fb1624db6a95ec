use crate::host_core::HostCore;
use crate::moment::moment_of_slot;
use crate::rows::{core_of, row_at};
use crate::switches::Switches;
use release_file::Wake;
use slot_model::LIMIT;
use std::alloc::{AllocError, Global};
use trace_file::{Event, EventTaker, What};
use tree_model::{MAX_CORES, Plan, System};

/// How many slots the cores are run by themselves at most: the switches at so many are kept.
const STRETCH: u64 = 4_096;

/// What the cores have come to at a slot. A run goes on in turns: the rows at the slot are taken
/// (`take_rows`), the cores whose VCPUs block stop (`stop_blocked`), and then each core runs by
/// itself (`run_on`) up to the next slot at which there is a row (`next_row`).
#[derive(Drop)]
pub struct Host {
    /// The next slot.
    pub time: u64,
    /// How many rows of the workload have been taken.
    pub taken: usize,
    pub cores: Vec<HostCore>,
}

impl Host {
    ghost use Rattle.std.specs.Prelude.{◌≡◌, ◌≢◌, ℕ, ◌≤◌, ◌<◌, ◌+◌, ◌^◌, false, List, [], Option, length, IfOk, OnOk};
    ghost use Rattle.slot_model.specs.declared.task.TheConstants.{LIMIT};
    ghost use Rattle.tree_model.specs.declared.system.TheConstants.{MAX_CORES};
    ghost use Rattle.tree_model.specs.View.{SystemView};
    ghost use Rattle.tree_model.specs.System.{IsSystem, part_at};
    ghost use Rattle.tree_model.specs.Tree.{run_at};
    ghost use Rattle.tree_model.specs.Plans.{IsPlan};
    ghost use Rattle.release_file.specs.declared.workload.Wake.{Wake as RowView};
    ghost use Rattle.release_file.specs.Workload.{row_at, IsWorkload};
    ghost use Rattle.trace_file.specs.Taker.{Took};
    ghost use Rattle.trace_file.specs.declared.event.What.TheVariants.{Stop};
    ghost use Rattle.rtds_trace.specs.Printed.{core_of, gathered, on_at};
    ghost use Rattle.rtds_sim.specs.inner.Accounts.{new_core, core_at, core_left, gives_up, holder_of, stop_of, AreOn, AreReady, TakesRow};
    ghost use Rattle.rtds_sim.specs.inner.Lists.{list_at};
    ghost use Rattle.rtds_sim.specs.inner.Running.{IsUnderway, HasRun};

    /// Before the first slot.
    pub fn new(alloc: Global, sys: &System, plan: &Plan) -> Result<Host, AllocError>
        requires plan { IsPlan sys.now plan.now }
        ensures system { IsSystem sys.now }
        ensures time { IfOk result (λ host. host.time ≡ 0) }
        ensures taken { IfOk result (λ host. host.taken ≡ 0) }
        ensures one_each { IfOk result (λ host. length host.cores.items ≡ length sys.now.cores) }
        ensures cores { IfOk result (λ host. (c : ℕ) → c < length sys.now.cores
            → core_at host.cores.items c ≡ new_core sys.now plan.now c) }
    {
        prove!(sys.cores().len() <= MAX_CORES);
        let mut cores = Vec::new(alloc);
        for c in 0..sys.cores().len() {
            cores.push(HostCore::new(alloc, sys, plan, c)?)?;
        }
        Ok(Host {
            time: 0,
            taken: 0,
            cores,
        })
    }

    /// Takes one row.
    fn take(&mut self, sys: &System, row: Wake)
        requires one_each { length self.old.cores.items ≡ length sys.now.cores }
        requires ready { AreReady self.old }
        requires is_part { row.vcpu < length sys.now.parts }
        requires more { self.old.taken + 1 < 2 ^ 64 }
        requires now { row.at ≡ self.old.time }
        requires in_limit { self.old.time ≤ LIMIT }
        ensures one_each { length self.new.cores.items ≡ length self.old.cores.items }
        ensures ready { AreReady self.new }
        ensures takes { TakesRow row
            (core_at self.old.cores.items (core_of (part_at sys.now row.vcpu).parent)).vcpus
            (core_at self.new.cores.items (core_of (part_at sys.now row.vcpu).parent)).vcpus }
        ensures others { (c : ℕ) → c ≢ core_of (part_at sys.now row.vcpu).parent
            → core_at self.new.cores.items c ≡ core_at self.old.cores.items c }
        ensures held { (c : ℕ) → c < length self.old.cores.items
            → holder_of (core_at self.new.cores.items c)
            ≡ holder_of (core_at self.old.cores.items c) }
        ensures taken { self.new.taken ≡ self.old.taken + 1 }
        ensures time { self.new.time ≡ self.old.time }
    {
        let core = core_of(sys, row.vcpu);
        self.cores[core as usize].take(row);
        self.taken += 1;
    }

    /// Takes the rows at the next slot.
    pub fn take_rows(&mut self, sys: &System, rows: &[Wake])
        requires one_each { length self.old.cores.items ≡ length sys.now.cores }
        requires ready { AreReady self.old }
        requires in_rows { self.old.taken ≤ length rows.now }
        requires known { (i : ℕ) → i < length rows.now
            → (row_at rows.now i).vcpu < length sys.now.parts }
        requires in_limit { self.old.time ≤ LIMIT }
        ensures one_each { length self.new.cores.items ≡ length self.old.cores.items }
        ensures ready { AreReady self.new }
        ensures in_rows { self.new.taken ≤ length rows.now }
        ensures later { self.old.taken ≤ self.new.taken }
        ensures now { (i : ℕ) → self.old.taken ≤ i → i < self.new.taken
            → (row_at rows.now i).at ≡ self.old.time }
        ensures no_more { self.new.taken < length rows.now
            → (row_at rows.now self.new.taken).at ≢ self.old.time }
        ensures vcpus { (budgets : List ℕ) (runs : List (List (Option ℕ))) (c : ℕ) →
            IsPlan sys.now budgets → IsWorkload sys.now rows.now → c < length sys.now.cores →
            AreOn sys.now budgets rows.now c (run_at runs c) self.old.time self.old.taken
            (core_at self.old.cores.items c).vcpus →
            AreOn sys.now budgets rows.now c (run_at runs c) self.old.time self.new.taken
            (core_at self.new.cores.items c).vcpus }
        ensures held { (c : ℕ) → c < length self.old.cores.items
            → holder_of (core_at self.new.cores.items c)
            ≡ holder_of (core_at self.old.cores.items c) }
        ensures time { self.new.time ≡ self.old.time }
    {
        while self.taken < rows.len() && row_at(rows, self.taken).at == self.time {
            self.take(sys, row_at(rows, self.taken));
        }
    }

    /// What is told where core `core` stops.
    fn stop_event(&self, core: usize) -> Event
        requires few { core < MAX_CORES }
        requires in_limit { self.now.time ≤ LIMIT }
        ensures { result ≡ on_at core self.now.time Stop }
    {
        Event {
            at: moment_of_slot(self.time),
            core: core as u32,
            what: What::Stop,
        }
    }

    /// Stops the cores whose VCPUs block, where `before` rows had been taken before the slot.
    pub fn stop_blocked<T: EventTaker>(
        &mut self,
        before: usize,
        events: &mut T,
    ) -> Result<(), AllocError>
        requires few { length self.old.cores.items ≤ MAX_CORES }
        requires ready { AreReady self.old }
        requires in_limit { self.old.time ≤ LIMIT }
        requires awake { before ≡ self.old.taken → (c : ℕ) → c < length self.old.cores.items
            → gives_up (core_at self.old.cores.items c) ≡ false }
        ensures events { OnOk result (Took T.has_taken events.old events.new
            (gathered (stop_of self.old) (length self.old.cores.items))) }
        ensures one_each { length self.new.cores.items ≡ length self.old.cores.items }
        ensures left { OnOk result ((c : ℕ) → c < length self.old.cores.items →
            core_at self.new.cores.items c ≡ core_left (core_at self.old.cores.items c)) }
        ensures taken { self.new.taken ≡ self.old.taken }
        ensures time { self.new.time ≡ self.old.time }
    {
        if before == self.taken {
            return Ok(());
        }
        for c in 0..self.cores.len() {
            if self.cores[c].gives_up() {
                events.take(self.stop_event(c))?;
                self.cores[c].holder = None;
            }
        }
        Ok(())
    }

    /// The slot up to which the cores are run by themselves: no row comes before it, and it is not
    /// past `slots`.
    pub fn next_row(&self, rows: &[Wake], slots: u64) -> u64
        requires in_limit { self.now.time ≤ LIMIT }
        ensures in_slots { result ≤ slots }
        ensures row { self.now.taken < length rows.now
            → result ≤ (row_at rows.now self.now.taken).at }
        ensures later { self.now.time < slots →
            (self.now.taken < length rows.now
            → self.now.time < (row_at rows.now self.now.taken).at)
            → self.now.time < result }
    {
        let next = slots.min(self.time + STRETCH);
        if self.taken < rows.len() {
            return row_at(rows, self.taken).at.min(next);
        }
        next
    }

    /// Runs each core by itself up to slot `to`, before which no row comes, and keeps what it
    /// tells.
    pub fn run_on(&mut self, to: u64, switches: &mut Switches) -> Result<(), AllocError>
        requires few { length self.old.cores.items ≤ MAX_CORES }
        requires ready { AreReady self.old }
        requires later { self.old.time < to }
        requires in_limit { to ≤ LIMIT }
        requires one_each { length switches.old.lists.items ≡ length self.old.cores.items }
        requires empty { (c : ℕ) → list_at switches.old.lists.items c ≡ [] }
        ensures one_each { OnOk result (length self.new.cores.items ≡ length self.old.cores.items) }
        ensures ready { OnOk result (AreReady self.new) }
        ensures run { OnOk result ((sys : SystemView) (budgets : List ℕ) (rows : List RowView)
            (n k c : ℕ) (run : List (Option ℕ)) → IsPlan sys budgets →
            c < length self.old.cores.items →
            IsUnderway sys budgets rows n c run self.old.time to k
            (core_at self.old.cores.items c) →
            HasRun sys budgets rows c run self.old.time to k (core_at self.new.cores.items c) []
            (list_at switches.new.lists.items c)) }
        ensures lists { OnOk result
            (length switches.new.lists.items ≡ length switches.old.lists.items) }
        ensures time { OnOk result (self.new.time ≡ to) }
        ensures taken { OnOk result (self.new.taken ≡ self.old.taken) }
    {
        for c in 0..self.cores.len() {
            self.cores[c].run_to(c, self.time, to, &mut switches.lists[c])?;
        }
        self.time = to;
        Ok(())
    }
}
