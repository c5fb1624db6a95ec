ghost use Rattle.std.specs.Prelude.{◌≡◌, ◌<◌, ◌≤◌, ◌+◌, length, map, slice_set, IfOk};
ghost use Rattle.slot_model.specs.declared.task.TheConstants.{LIMIT};
ghost use Rattle.slot_model.specs.Slots.{places_where};
ghost use Rattle.tree_model.specs.declared.place.Place.TheVariants.{Core};
ghost use Rattle.tree_model.specs.Tree.{is_child};
ghost use Rattle.tree_model.specs.Plans.{IsPlan};
ghost use Rattle.rtds_queues.specs.Accounts.{account_at};
ghost use Rattle.rtds_sim.specs.inner.Accounts.{new_account, row_taken};

use release_file::{Wake, WakeKind};
use rtds_queues::{Account, Vcpus};
use slot_model::LIMIT;
use std::alloc::{AllocError, Global};
use tree_model::{MAX_CORES, MAX_PARTS, Parent, Plan, System};

/// A core with its VCPUs, and which of them has it.
#[derive(Drop)]
pub struct HostCore {
    pub vcpus: Vcpus,
    /// By its place among them.
    pub holder: Option<u32>,
}

impl HostCore {
    ghost use Rattle.std.specs.Prelude.{◌≡◌, ℕ, ◌<◌, ◌≤◌, Some, length, IfOk};
    ghost use Rattle.slot_model.specs.declared.task.TheConstants.{LIMIT};
    ghost use Rattle.tree_model.specs.Plans.{IsPlan};
    ghost use Rattle.rtds_sim.specs.inner.Accounts.{new_core, gives_up, IsReady, TakesRow};

    /// Before the first slot.
    pub fn new(
        alloc: Global,
        sys: &System,
        plan: &Plan,
        core: usize,
    ) -> Result<HostCore, AllocError>
        requires plan { IsPlan sys.now plan.now }
        requires is_core { core < length sys.now.cores }
        ensures { IfOk result (λ run. run ≡ new_core sys.now plan.now core) }
    {
        prove!(sys.cores().len() <= MAX_CORES);
        let accounts = accounts_of(alloc, sys, plan, core as u32)?;
        let vcpus = Vcpus::new(alloc, accounts)?;
        Ok(HostCore {
            vcpus,
            holder: None,
        })
    }

    /// Takes a row, where it is of one of its VCPUs.
    pub fn take(&mut self, row: Wake)
        requires ready { IsReady row.at self.old }
        requires in_limit { row.at ≤ LIMIT }
        ensures ready { IsReady row.at self.new }
        ensures takes { TakesRow row self.old.vcpus self.new.vcpus }
        ensures holder { self.new.holder ≡ self.old.holder }
    {
        if let Some(v) = self.vcpus.place_of(row.vcpu) {
            take_row(&mut self.vcpus, v, row);
        }
    }

    /// Whether the VCPU that has it is blocked.
    pub fn gives_up(&self) -> bool
        requires { (v : ℕ) → self.now.holder ≡ Some v → v < length self.now.vcpus }
        ensures { result ≡ gives_up self.now }
    {
        match self.holder {
            Some(v) => self.vcpus.account(v).blocked,
            None => false,
        }
    }
}

/// Has VCPU `v` take a row.
fn take_row(vcpus: &mut Vcpus, v: u32, row: Wake)
    requires is_vcpu { v < length vcpus.old }
    requires in_limit { row.at ≤ LIMIT }
    requires period { (account_at vcpus.old v).period ≤ LIMIT }
    ensures { vcpus.new ≡ slice_set vcpus.old v (row_taken row.what
        (row.at + (account_at vcpus.old v).period) (account_at vcpus.old v)) }
{
    match row.what {
        WakeKind::Start => vcpus.start(v, row.at),
        WakeKind::Wake => vcpus.wake(v),
        WakeKind::Block => vcpus.block(v),
    }
}

/// The VCPUs of core `core`, before the first slot.
fn accounts_of(
    alloc: Global,
    sys: &System,
    plan: &Plan,
    core: u32,
) -> Result<Vec<Account>, AllocError>
    requires plan { IsPlan sys.now plan.now }
    ensures { IfOk result (λ accounts. accounts.items ≡ map (new_account sys.now plan.now)
        (places_where (is_child sys.now (Core core)) (length sys.now.parts))) }
{
    prove!(sys.parts().len() <= MAX_PARTS);
    let mut accounts = Vec::new(alloc);
    for v in 0..sys.parts().len() {
        if stands_on(sys, v, core) {
            accounts.push(account_of(sys, plan, v))?;
        }
    }
    Ok(accounts)
}

/// Whether a part stands on core `core`.
fn stands_on(sys: &System, v: usize, core: u32) -> bool
    requires { v < length sys.now.parts }
    ensures { result ≡ is_child sys.now (Core core) v }
{
    match sys.parts()[v].parent() {
        Parent::Core(c) => c == core,
        Parent::Part(_) => false,
    }
}

/// The account of a part before the first slot.
fn account_of(sys: &System, plan: &Plan, v: usize) -> Account
    requires plan { IsPlan sys.now plan.now }
    requires is_part { v < length sys.now.parts }
    ensures { result ≡ new_account sys.now plan.now v }
{
    prove!(sys.parts().len() <= MAX_PARTS);
    let part = &sys.parts()[v];
    Account::new(v as u32, part.period(), plan.budgets()[v], part.extra())
}
