ghost use Rattle.std.specs.Prelude.{◌≡◌, ◌≤◌, ◌<◌, ◌+◌, ◌^◌};
ghost use Rattle.rtds_queues.specs.declared.account.Change.TheVariants.{HadBudget};
ghost use Rattle.rtds_queues.specs.Accounts.{no_account, renewed, using, changed, account_eligible, goes_ahead};

use slot_model::LIMIT;

/// Past the last slot of each run.
pub const PAST_ALL: u64 = LIMIT + 1;

/// A VCPU of a core: its numbers, and what is kept of it between two events.
#[derive(Clone, Copy, Debug, PartialEq, Eq)]
pub struct Account {
    /// Its place in the system file.
    pub part: u32,
    /// In slots, as the budget.
    pub period: u64,
    pub budget: u64,
    /// Whether it goes on past its budget where no VCPU with budget left wants to.
    pub extra: bool,
    pub started: bool,
    pub blocked: bool,
    /// The slot at which its period ends, and one past all where it is not started.
    pub until: u64,
    /// How often it has had its budget in its period. Before its start a filler: 0.
    pub level: u64,
    /// The slots until it has had its budget once more. Before its start a filler: 1.
    pub left: u64,
}

/// What changes an account.
#[derive(Clone, Copy)]
pub enum Change {
    /// Its VCPU starts, in a period that ends at this slot.
    Start(u64),
    Wake,
    Block,
    /// A period begins that ends at this slot.
    Begin(u64),
    /// Its VCPU has had its budget once more.
    HadBudget,
}

impl Account {
    /// Before its start.
    pub fn new(part: u32, period: u64, budget: u64, extra: bool) -> Account
        ensures { result
            ≡ record no_account { part = part; period = period; budget = budget; extra = extra } }
    {
        Account {
            part,
            period,
            budget,
            extra,
            started: false,
            blocked: false,
            until: PAST_ALL,
            level: 0,
            left: 1,
        }
    }

    /// Has it have some slots, where more are left.
    #[inline(always)]
    pub fn use_slots(&mut self, slots: u64)
        requires { slots ≤ self.old.left }
        ensures { self.new ≡ using self.old slots }
    {
        self.left -= slots;
    }

    /// Changes it.
    #[inline(always)]
    pub fn change(&mut self, change: Change)
        requires { change ≡ HadBudget → self.old.level + 1 < 2 ^ 64 }
        ensures { self.new ≡ changed change self.old }
    {
        match change {
            Change::Start(end) => {
                self.started = true;
                self.blocked = false;
                self.begin(end);
            }
            Change::Wake => self.blocked = false,
            Change::Block => self.blocked = true,
            Change::Begin(end) => self.begin(end),
            Change::HadBudget => {
                self.level += 1;
                self.left = self.budget;
            }
        }
    }

    /// Begins a period of it that ends at slot `end`.
    #[inline(always)]
    fn begin(&mut self, end: u64)
        ensures { self.new ≡ renewed self.old end }
    {
        self.until = end;
        self.level = 0;
        self.left = self.budget;
    }

    /// Whether it is started and not blocked, and has budget left or extra time.
    #[inline(always)]
    pub fn is_eligible(&self) -> bool
        ensures { result ≡ account_eligible self.now }
    {
        self.started && !self.blocked && (self.level == 0 || self.extra)
    }

    /// Whether VCPU `u`, which has this account, goes before VCPU `v`, which has the other one: by
    /// the least level, then by the least deadline, then as the first in the file.
    #[inline(always)]
    pub fn goes_ahead(&self, u: u32, other: &Account, v: u32) -> bool
        ensures { result ≡ goes_ahead self.now u other.now v }
    {
        self.level < other.level
            || self.level == other.level
                && (self.until < other.until || self.until == other.until && u < v)
    }
}
