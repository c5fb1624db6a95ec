ghost use Rattle.std.specs.Prelude.{◌≡◌, ◌⊎◌, ◌≤◌, ◌<◌, ◌+◌, ◌∷◌, ◌++◌, [], Option, Some, None, length, OnOk, IfErr};
ghost use Rattle.release_file.specs.Workload.{is_block, may_follow};
ghost use Rattle.release_file.specs.inner.WakesTaken.{stands_at};

use crate::wake_spelling::{SpeltWake, spell_wake};
use crate::{ReleaseFault, Wake, WakeKind};
use csv_rows::{Row, RowRules};
use std::alloc::Global;
use trace_file::{Places, part_places};
use tree_model::{MAX_PARTS, System};

/// The rows of a workload so far.
#[derive(Drop)]
pub struct WakeRows<'s> {
    sys: &'s System,
    /// The places of the parts by their names.
    parts: Places<'s>,
    /// The slot of the last row.
    slot: u64,
    /// The last row of each VCPU.
    last: [Option<Wake>; MAX_PARTS],
    wakes: Vec<Wake>,
}

impl<'s> RowRules for WakeRows<'s> {
    ghost use Rattle.std.specs.Prelude.{◌≡◌};
    ghost use Rattle.release_file.specs.declared.fault.ReleaseFault.TheVariants.{NoMemory};
    ghost use Rattle.release_file.specs.WorkloadFile.{wake_rules};
    ghost use Rattle.release_file.specs.inner.WakesTaken.{HasTakenWakes};

    type Fault = ReleaseFault;

    ghost rules = { λ t. wake_rules t.sys.now };

    ghost has_taken = { HasTakenWakes };

    ghost is_memory = { λ fault. fault ≡ NoMemory };

    fn take(&mut self, row: &Row, number: u64) -> Result<(), ReleaseFault> {
        match spell_wake(self.sys, &self.parts, row) {
            SpeltWake::Bad => Err(ReleaseFault::BadRow(number)),
            SpeltWake::TooLate => Err(ReleaseFault::OutOfRange(number)),
            SpeltWake::Unknown(at) => Err(self.unknown_fault(at, number)),
            SpeltWake::Spelled(wake) => self.keep(wake, number),
        }
    }

    fn no_memory(&self) -> ReleaseFault {
        ReleaseFault::NoMemory
    }
}

impl<'s> WakeRows<'s> {
    ghost use Rattle.std.specs.Prelude.{◌≡◌, ◌⊎◌, ◌≤◌, ◌<◌, ◌+◌, ◌∷◌, ◌++◌, [], Some, None, length, true, false, IfOk, IfErr, OnOk};
    ghost use Rattle.slot_model.specs.declared.task.TheConstants.{LIMIT};
    ghost use Rattle.tree_model.specs.System.{IsSystem};
    ghost use Rattle.trace_file.specs.Rules.{is_vcpu};
    ghost use Rattle.release_file.specs.declared.workload.Wake.{Wake as WakeView};
    ghost use Rattle.release_file.specs.declared.fault.ReleaseFault.TheVariants.{NoMemory};
    ghost use Rattle.csv_rows.specs.Rules.{row_of};
    ghost use Rattle.release_file.specs.WorkloadFile.{turn_fault, wake_fault};
    ghost use Rattle.release_file.specs.inner.WakesTaken.{HasTakenWakes, IsBehind};

    /// Before the first row.
    pub fn new(alloc: Global, sys: &'s System) -> Result<WakeRows<'s>, ReleaseFault>
        ensures taken { IfOk result (λ t. HasTakenWakes t t []) }
        ensures system { IfOk result (λ t. t.sys.now ≡ sys.now) }
        ensures memory { IfErr result (λ fault. fault ≡ NoMemory) }
    {
        let Ok(parts) = part_places(alloc, sys.parts()) else {
            return Err(ReleaseFault::NoMemory);
        };
        Ok(WakeRows {
            sys,
            parts,
            slot: 0,
            last: [None; MAX_PARTS],
            wakes: Vec::new(alloc),
        })
    }

    /// The workload of the rows.
    pub fn finish(self) -> Vec<Wake>
        ensures { result.items ≡ self.entry.wakes.items }
    {
        self.wakes
    }

    /// The first rule that a row breaks which names no VCPU, at a slot in the limit.
    fn unknown_fault(&self, at: u64, number: u64) -> ReleaseFault
        requires behind { IsBehind self.now.wakes.items self.now }
        requires in_limit { at ≤ LIMIT }
        requires row { number ≡ row_of (length self.now.wakes.items) }
        ensures { (wake : WakeView) → at ≡ wake.at
            → is_vcpu self.now.sys.now wake.vcpu ≡ false
            → wake_fault self.now.sys.now self.now.wakes.items wake ≡ Some result }
    {
        if at < self.slot {
            return ReleaseFault::BadOrder(number);
        }
        ReleaseFault::Unknown(number)
    }

    /// The first rule that a row of a VCPU breaks, whose slot is in the limit.
    fn fault(&self, wake: Wake, number: u64) -> Option<ReleaseFault>
        requires system { IsSystem self.now.sys.now }
        requires behind { IsBehind self.now.wakes.items self.now }
        requires in_limit { wake.at ≤ LIMIT }
        requires vcpu { is_vcpu self.now.sys.now wake.vcpu ≡ true }
        requires row { number ≡ row_of (length self.now.wakes.items) }
        ensures { result ≡ wake_fault self.now.sys.now self.now.wakes.items wake }
    {
        if wake.at < self.slot {
            return Some(ReleaseFault::BadOrder(number));
        }
        self.turn_fault(wake, number)
    }

    /// The same of a VCPU, at no slot before that of the last row.
    fn turn_fault(&self, wake: Wake, number: u64) -> Option<ReleaseFault>
        requires behind { IsBehind self.now.wakes.items self.now }
        requires in_order { self.now.slot ≤ wake.at }
        requires is_part { wake.vcpu < 512 }
        requires row { number ≡ row_of (length self.now.wakes.items) }
        ensures { result ≡ turn_fault self.now.wakes.items wake }
    {
        let last = self.last[wake.vcpu as usize];
        if stands_at(last, wake.at) {
            return Some(ReleaseFault::BadOrder(number));
        }
        if !may_follow(last, wake.what) {
            return Some(ReleaseFault::BadOrder(number));
        }
        None
    }

    /// Takes the row of a VCPU, where it keeps the rules.
    fn keep(&mut self, wake: Wake, number: u64) -> Result<(), ReleaseFault>
        requires system { IsSystem self.old.sys.now }
        requires behind { IsBehind self.old.wakes.items self.old }
        requires in_limit { wake.at ≤ LIMIT }
        requires vcpu { is_vcpu self.old.sys.now wake.vcpu ≡ true }
        requires row { number ≡ row_of (length self.old.wakes.items) }
        ensures sys { self.new.sys ≡ self.old.sys }
        ensures parts { self.new.parts ≡ self.old.parts }
        ensures kept { OnOk result
            (wake_fault self.old.sys.now self.old.wakes.items wake ≡ None) }
        ensures wakes { OnOk result (self.new.wakes.items ≡ self.old.wakes.items ++ wake ∷ []) }
        ensures behind { OnOk result (IsBehind self.new.wakes.items self.new) }
        ensures fault { IfErr result (λ fault. (fault ≡ NoMemory)
            ⊎ (wake_fault self.old.sys.now self.old.wakes.items wake ≡ Some fault)) }
    {
        if let Some(fault) = self.fault(wake, number) {
            return Err(fault);
        }
        if self.wakes.push(wake).is_err() {
            return Err(ReleaseFault::NoMemory);
        }
        self.slot = wake.at;
        self.last[wake.vcpu as usize] = Some(wake);
        Ok(())
    }
}

/// Whether the last row of a VCPU is at this slot.
fn stands_at(last: Option<Wake>, slot: u64) -> bool
    ensures { result ≡ stands_at last slot }
{
    match last {
        None => false,
        Some(row) => row.at == slot,
    }
}

fn is_block(what: WakeKind) -> bool
    ensures { result ≡ is_block what }
{
    match what {
        WakeKind::Start | WakeKind::Wake => false,
        WakeKind::Block => true,
    }
}

/// Whether this may follow on the last row of a VCPU.
fn may_follow(last: Option<Wake>, what: WakeKind) -> bool
    ensures { result ≡ may_follow last what }
{
    match last {
        None => what == WakeKind::Start,
        Some(row) => match what {
            WakeKind::Start => false,
            WakeKind::Wake => is_block(row.what),
            WakeKind::Block => !is_block(row.what),
        },
    }
}
