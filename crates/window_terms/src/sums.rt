ghost use Rattle.std.specs.Prelude.{◌≡◌, ℕ, ◌*◌, ◌-◌, ◌^◌, ◌<◌, ◌≤◌, All};
ghost use Rattle.slot_model.specs.declared.task.TheConstants.{LIMIT};
ghost use Rattle.window_terms.specs.Asked.{asked_by, IsNear};

use crate::term::Term;

/// The longest window, up to `most` slots, that is near for all terms.
pub fn near(terms: &[Term], most: u64) -> u64
    ensures near { All (λ term. IsNear term result) terms.now }
    ensures within { result ≤ most }
    ensures longest { (t : ℕ) → t ≤ most → All (λ term. IsNear term t) terms.now → t ≤ result }
{
    let mut near = most;
    for term in terms {
        near = near.min(term.near());
    }
    near
}

/// What the terms ask for in a window that leaves room for their slack: near up to `near` slots.
pub fn asked(terms: &[Term], near: u64, t: u64) -> u128
    requires in_range { t < 2 ^ 64 - LIMIT }
    requires near { All (λ term. IsNear term near) terms.now }
    requires near_fits { t ≤ near → asked_by terms.now t < 2 ^ 64 }
    requires fits { asked_by terms.now t < 2 ^ 128 }
    ensures { result ≡ asked_by terms.now t }
{
    if t <= near {
        asked_near(terms, t) as u128
    } else {
        asked_far(terms, t)
    }
}

/// The same in a near window.
pub fn asked_near(terms: &[Term], t: u64) -> u64
    requires near { All (λ term. IsNear term t) terms.now }
    requires fits { asked_by terms.now t < 2 ^ 64 }
    ensures { result ≡ asked_by terms.now t }
{
    let mut total = 0;
    for term in terms {
        total += term.jobs_near(t) * term.work;
    }
    total
}

fn asked_far(terms: &[Term], t: u64) -> u128
    requires in_range { t < 2 ^ 64 - LIMIT }
    requires fits { asked_by terms.now t < 2 ^ 128 }
    ensures { result ≡ asked_by terms.now t }
{
    let mut total: u128 = 0;
    for term in terms {
        total += term.jobs(t) as u128 * term.work as u128;
    }
    total
}
