ghost use Rattle.std.specs.Prelude.{◌≡◌, ◌*◌, ◌-◌, ◌/◌, ◌^◌, ◌<◌, ◌≤◌};
ghost use Rattle.slot_model.specs.declared.task.TheConstants.{LIMIT};

/// What tasks of one period ask for together: in `t` slots `(t + slack) / period` jobs of each. The
/// work is the sum of their works.
#[derive(Clone, Copy)]
pub struct Term {
    pub period: u64,
    pub slack: u64,
    pub work: u64,
    pub reciprocal: u64,
    pub ghost in_period: { slack < period },
    pub ghost in_limit: { period ≤ LIMIT },
    pub ghost is_reciprocal: { reciprocal ≡ (2 ^ 64 - 1) / period },
}

impl Term {
    ghost use Rattle.std.specs.Prelude.{◌+◌, MatchOption};

    /// The term that asks for nothing, with which room for terms begins.
    pub fn none() -> Term
        ensures { result.work ≡ 0 }
    {
        Term {
            period: 1,
            slack: 0,
            work: 0,
            reciprocal: u64::MAX,
        }
    }

    /// One task by itself.
    pub fn new(period: u64, slack: u64, work: u64) -> Term
        requires in_period { slack < period }
        requires in_limit { period ≤ LIMIT }
        ensures { (result.period ≡ period) × (result.slack ≡ slack) × (result.work ≡ work) }
    {
        Term {
            period,
            slack,
            work,
            reciprocal: u64::MAX / period,
        }
    }

    /// One task more, where the sum of the works fits.
    pub fn with(self, work: u64) -> Option<Term>
        ensures { MatchOption result (2 ^ 64 ≤ self.work + work) (λ longer.
            (longer.period ≡ self.period) × (longer.slack ≡ self.slack)
            × (longer.work ≡ self.work + work)) }
    {
        Some(Term {
            period: self.period,
            slack: self.slack,
            work: self.work.checked_add(work)?,
            reciprocal: self.reciprocal,
        })
    }

    /// The longest near window: up to it the reciprocal alone gives the quotient.
    pub(crate) fn near(&self) -> u64
        ensures { result + 1 + self.now.slack ≡ self.now.reciprocal }
    {
        self.reciprocal - self.slack - 1
    }

    /// How many jobs of each task fall into a near window.
    pub(crate) fn jobs_near(&self, t: u64) -> u64
        requires { t + 1 + self.now.slack ≤ self.now.reciprocal }
        ensures { result ≡ (t + self.now.slack) / self.now.period }
    {
        let next = t + 1 + self.slack;
        high_half(next, self.reciprocal)
    }

    /// The same in any window that leaves room for the slack: the guess is the quotient or one
    /// less.
    pub(crate) fn jobs(&self, t: u64) -> u64
        requires { t < 2 ^ 64 - LIMIT }
        ensures { result ≡ (t + self.now.slack) / self.now.period }
    {
        let all = t + self.slack;
        let guess = high_half(all, self.reciprocal);
        let rest = all - guess * self.period;
        if rest >= self.period {
            guess + 1
        } else {
            guess
        }
    }
}

/// The upper 64 bits of a product.
fn high_half(a: u64, b: u64) -> u64
    ensures { result ≡ (a * b) / 2 ^ 64 }
{
    ((a as u128 * b as u128) >> 64) as u64
}
