ghost use Rattle.std.specs.Prelude.{◌≡◌, ◌+◌, ◌-◌, ◌*◌, ◌^◌, ◌/◌, ◌%◌, ◌<◌, ◌≤◌, ◌≢◌, min, true};
ghost use Rattle.slot_model.specs.Supply.{worst_slot_by};
ghost use Rattle.supply_bound.specs.NextWindow.{IsFirstStretch, IsNextWindow};

/// The slots x with from <= x < until.
#[derive(Clone, Copy, Debug, PartialEq, Eq)]
pub struct Window {
    pub from: u64,
    pub until: u64,
}

/// The next window of the worst pattern where every period has `budget` slots within its first
/// `deadline` ones: the first stretch of its slots among the slots x with from <= x < below.
pub fn next_window_by(
    period: u64,
    budget: u64,
    deadline: u64,
    from: u64,
    below: u64,
) -> Option<Window>
    requires some_deadline { 1 ≤ deadline }
    requires in_deadline { budget ≤ deadline }
    requires in_period { deadline ≤ period }
    ensures { IsNextWindow (worst_slot_by period budget deadline) from below result }
{
    if below <= from || budget == 0 {
        return None;
    }
    if budget == period {
        return every_slot(from, below);
    }
    if from < budget {
        return Some(Window {
            from,
            until: budget.min(below),
        });
    }
    later_window(period, budget, deadline, from, below)
}

/// The next window of that pattern after a window that it has below `below`. It needs no division:
/// where more follow, that window ends with the budget of a period.
pub fn window_after_by(
    period: u64,
    budget: u64,
    deadline: u64,
    last: Window,
    below: u64,
) -> Option<Window>
    requires some_deadline { 1 ≤ deadline }
    requires in_deadline { budget ≤ deadline }
    requires in_period { deadline ≤ period }
    requires is_window { let pattern = worst_slot_by period budget deadline in
        IsFirstStretch pattern last.from below last }
    ensures { IsNextWindow (worst_slot_by period budget deadline) last.until below result }
{
    if below <= last.until {
        return None;
    }
    let from = first_after(period, budget, deadline, last.until);
    if below <= from {
        return None;
    }
    let until = from.saturating_add(budget).min(below);
    Some(Window { from, until })
}

/// Where the budget begins that follows one that ends at `end`, as far as 64 bits tell it.
fn first_after(period: u64, budget: u64, deadline: u64, end: u64) -> u64
    requires in_deadline { budget ≤ deadline }
    requires in_period { deadline ≤ period }
    ensures second { end ≡ budget → result ≡ min (period + (deadline - budget)) (2 ^ 64 - 1) }
    ensures later { end ≢ budget → result ≡ min (end + (period - budget)) (2 ^ 64 - 1) }
{
    if end == budget {
        period.saturating_add(deadline - budget)
    } else {
        end.saturating_add(period - budget)
    }
}

/// The next window of the pattern that has every slot.
pub(crate) fn every_slot(from: u64, below: u64) -> Option<Window>
    ensures { IsNextWindow (λ x. true) from below result }
{
    if from < below {
        Some(Window { from, until: below })
    } else {
        None
    }
}

/// The next window from a slot on that is past the first budget.
fn later_window(period: u64, budget: u64, deadline: u64, from: u64, below: u64) -> Option<Window>
    requires some_budget { 1 ≤ budget }
    requires in_deadline { budget ≤ deadline }
    requires in_period { deadline ≤ period }
    requires some_gap { budget < period }
    requires past { budget ≤ from }
    ensures { IsNextWindow (worst_slot_by period budget deadline) from below result }
{
    let begin = next_begin(period, deadline, from);
    let first = begin.saturating_add(deadline - budget).max(from);
    if first >= below {
        return None;
    }
    let until = begin.saturating_add(deadline).min(below);
    Some(Window { from: first, until })
}

/// The begin of the first period but the very first whose deadline is past `from`, as far as 64
/// bits tell it.
fn next_begin(period: u64, deadline: u64, from: u64) -> u64
    requires { 1 ≤ period }
    ensures first { from < period → result ≡ period }
    ensures same { period ≤ from → from % period < deadline → result ≡ (from / period) * period }
    ensures next { period ≤ from → deadline ≤ from % period →
        result ≡ min ((from / period + 1) * period) (2 ^ 64 - 1) }
{
    let place = from % period;
    let begin = from - place;
    if from < period || deadline <= place {
        begin.saturating_add(period)
    } else {
        begin
    }
}
