ghost use Rattle.std.specs.Prelude.{◌≡◌, ℕ, ◌<◌, length, IfOk};
ghost use Rattle.rtds_queues.specs.inner.Queues.{place_at};

use crate::account::{Account, Change};
use crate::by_end::{first_end, put_in_order, settle};
use crate::queue::Queue;
use slot_model::LIMIT;
use std::alloc::{AllocError, Global};
use std::marker::Model;

/// The VCPUs of a core, in the order of the file. Which of them goes first, and where the first of
/// their periods ends, is known without looking at all of them.
#[derive(Drop)]
pub struct Vcpus {
    accounts: Vec<Account>,
    /// Those that are eligible, in the order in which they go.
    queue: Queue,
    /// All, in the order in which their periods end.
    by_end: Vec<u32>,
}

impl Model for Vcpus {
    ghost use Rattle.std.specs.Prelude.{List};
    ghost use Rattle.rtds_queues.specs.declared.account.Account.{Account as AccountView};

    ghost Value = { List AccountView };

    ghost use Rattle.rtds_queues.specs.inner.Vcpus.{AreVcpus};

    ghost view = { λ v. v.accounts.items };

    ghost invariant = { λ v. AreVcpus v.accounts.items v.queue v.by_end.items };
}

impl Vcpus {
    ghost use Rattle.std.specs.Prelude.{◌≡◌, ℕ, suc, ◌<◌, ◌≤◌, ◌+◌, ◌^◌, ◌≢◌, Some, None, length, slice_set, IfOk};
    ghost use Rattle.slot_model.specs.declared.task.TheConstants.{LIMIT};
    ghost use Rattle.tree_model.specs.declared.system.TheConstants.{MAX_PARTS};
    ghost use Rattle.rtds_queues.specs.declared.account.Change.TheVariants.{HadBudget};
    ghost use Rattle.rtds_queues.specs.Accounts.{account_at, end_at, starting, waking, blocking, changed, had_slots, begun};
    ghost use Rattle.rtds_queues.specs.Vcpus.{HavePeriods, IsChoice, IsFirstEnd, IsPlaceOf, NoEndBefore, NoneStarted};
    ghost use Rattle.rtds_queues.specs.inner.Vcpus.{BeginsOne};

    /// Those of a core, of which none is started.
    pub fn new(alloc: Global, accounts: Vec<Account>) -> Result<Vcpus, AllocError>
        requires few { length accounts.items ≤ MAX_PARTS }
        requires idle { NoneStarted accounts.items }
        ensures { IfOk result (λ made. made ≡ accounts.items) }
    {
        let count = accounts.len() as u32;
        let by_end = numbers_below(alloc, count)?;
        Ok(Vcpus {
            accounts,
            queue: Queue::new(count),
            by_end,
        })
    }

    /// What is kept of VCPU `v`.
    #[inline(always)]
    pub fn account(&self, v: u32) -> Account
        requires { v < length self.now }
        ensures { result ≡ account_at self.now v }
    {
        self.accounts[v as usize]
    }

    /// Which VCPU is this part of the system, if one is.
    pub fn place_of(&self, part: u32) -> Option<u32>
        ensures some { (v : ℕ) → result ≡ Some v → IsPlaceOf self.now part v }
        ensures none { result ≡ None → (v : ℕ) → v < length self.now
            → (account_at self.now v).part ≢ part }
    {
        for v in 0..self.accounts.len() {
            if self.accounts[v].part == part {
                return Some(v as u32);
            }
        }
        None
    }

    /// The VCPU that goes first, if one is eligible.
    #[inline(always)]
    pub fn first_of(&self) -> Option<u32>
        ensures { IsChoice self.now result }
    {
        self.queue.first_of()
    }

    /// The slot at which the first period ends, and one past all where there is no VCPU.
    #[inline(always)]
    pub fn first_end(&self) -> u64
        ensures { IsFirstEnd self.now result }
    {
        first_end(&self.by_end, &self.accounts)
    }

    /// VCPU `v` starts, and a period of it begins, at slot `at`.
    pub fn start(&mut self, v: u32, at: u64)
        requires is_vcpu { v < length self.old }
        requires in_limit { at ≤ LIMIT }
        requires period { (account_at self.old v).period ≤ LIMIT }
        ensures { self.new ≡ slice_set self.old v
            (starting (account_at self.old v) (at + (account_at self.old v).period)) }
    {
        let end = at + self.accounts[v as usize].period;
        self.queue.change(&mut self.accounts, v, Change::Start(end));
        put_in_order(&mut self.by_end, &self.accounts, v);
    }

    /// VCPU `v` wakes.
    pub fn wake(&mut self, v: u32)
        requires { v < length self.old }
        ensures { self.new ≡ slice_set self.old v (waking (account_at self.old v)) }
    {
        self.change(v, Change::Wake);
    }

    /// VCPU `v` blocks.
    pub fn block(&mut self, v: u32)
        requires { v < length self.old }
        ensures { self.new ≡ slice_set self.old v (blocking (account_at self.old v)) }
    {
        self.change(v, Change::Block);
    }

    /// Counts some slots, which VCPU `v` had.
    #[inline(always)]
    pub fn use_slots(&mut self, v: u32, slots: u64)
        requires is_vcpu { v < length self.old }
        requires few { (account_at self.old v).level + 1 < 2 ^ 64 }
        ensures { self.new ≡ slice_set self.old v (had_slots (account_at self.old v) slots) }
    {
        if slots < self.accounts[v as usize].left {
            self.accounts[v as usize].use_slots(slots);
        } else {
            self.change(v, Change::HadBudget);
        }
    }

    /// Changes the account of VCPU `v`, whose period ends as before.
    #[inline(always)]
    fn change(&mut self, v: u32, change: Change)
        requires is_vcpu { v < length self.old }
        requires few { change ≡ HadBudget → (account_at self.old v).level + 1 < 2 ^ 64 }
        requires ends { (changed change (account_at self.old v)).until ≡ end_at self.old v }
        ensures { self.new ≡ slice_set self.old v (changed change (account_at self.old v)) }
    {
        self.queue.change(&mut self.accounts, v, change);
    }

    /// Begins the periods that begin at slot `at`.
    pub fn begin_periods(&mut self, at: u64)
        requires in_limit { at ≤ LIMIT }
        requires periods { HavePeriods self.old }
        requires ends { NoEndBefore self.old at }
        ensures one_each { length self.new ≡ length self.old }
        ensures begun { (v : ℕ) → v < length self.old
            → account_at self.new v ≡ begun (account_at self.old v) at }
        ensures ends { NoEndBefore self.new (suc at) }
    {
        while self.first_end() == at {
            self.begin_first(at);
        }
    }

    /// Begins the next period of the VCPU whose period ends first, which is at slot `at`.
    #[inline(always)]
    fn begin_first(&mut self, at: u64)
        requires in_limit { at ≤ LIMIT }
        requires periods { HavePeriods self.old }
        requires first { IsFirstEnd self.old at }
        ensures { BeginsOne at self.old self.new }
    {
        let v = self.by_end[0];
        let end = at + self.accounts[v as usize].period;
        self.queue.change(&mut self.accounts, v, Change::Begin(end));
        settle(&mut self.by_end, &self.accounts);
    }
}

/// The numbers below `count`, in order.
fn numbers_below(alloc: Global, count: u32) -> Result<Vec<u32>, AllocError>
    ensures long { IfOk result (λ list. length list.items ≡ count) }
    ensures each { IfOk result (λ list. (i : ℕ) → i < count → place_at list.items i ≡ i) }
{
    let mut list = Vec::new(alloc);
    for v in 0..count {
        list.push(v)?;
    }
    Ok(list)
}
