ghost use Rattle.std.specs.Prelude.{◌≡◌, ℕ, ◌+◌, ◌<◌, ◌≤◌, [], length, map, slice_index_or, Some, IfOk};
ghost use Rattle.slot_model.specs.Supply.{Follows};
ghost use Rattle.guest_sched.specs.Spans.{AreWindows, slots_of};
ghost use Rattle.tree_model.specs.System.{IsCoreSupply, core_at};
ghost use Rattle.tree_model.specs.Tree.{CoreConforms};
ghost use Rattle.tree_spans.specs.TreeSpans.{AreSupplies, supplies_of};
ghost use Rattle.server_sched.specs.Patterns.{pattern_slot, pattern_supplies};
ghost use Rattle.server_sched.specs.inner.Cyclic.{cyclic_slot};

use guest_sched::{Window, add_window, pattern_windows};
use std::alloc::{AllocError, Global};
use supply_bound::{Full, Periodic};
use tree_model::System;

/// Where a core that is not full has its budget in each period.
#[derive(Clone, Copy, Debug, PartialEq, Eq)]
pub enum Pattern {
    /// At the begin of each period.
    Early,
    /// At the end of each period.
    Late,
    /// At the begin of the first period, and at the end of each later one.
    Worst,
}

/// The windows of each core's supply in `slots` slots: a full core has every slot, and each other
/// one its budget where the pattern says. It costs time for each period, and none for a slot.
pub fn core_supplies(
    alloc: Global,
    sys: &System,
    pattern: Pattern,
    slots: u64,
) -> Result<Vec<Vec<Window>>, AllocError>
    ensures supplies { IfOk result (λ given.
        AreSupplies sys.now slots (map (λ g. g.items) given.items)) }
    ensures exact { IfOk result (λ given. supplies_of (map (λ g. g.items) given.items) slots ≡
        pattern_supplies sys.now pattern slots) }
    // each of these lists gives what the file says of its core
    ensures conform { IfOk result (λ _. (c : ℕ) → c < length sys.now.cores →
        CoreConforms (core_at sys.now c).supply
        (slice_index_or (pattern_supplies sys.now pattern slots) c [])) }
{
    let cores = sys.cores();
    let mut given = Vec::with_capacity(alloc, cores.len())?;
    for core in cores {
        given.push(supply_windows(alloc, pattern, core.supply, slots)?)?;
    }
    Ok(given)
}

/// The windows of one supply.
fn supply_windows(
    alloc: Global,
    pattern: Pattern,
    supply: Option<(u64, u64)>,
    slots: u64,
) -> Result<Vec<Window>, AllocError>
    requires supply { IsCoreSupply supply }
    ensures windows { IfOk result (λ windows. AreWindows windows.items slots) }
    ensures follows { IfOk result (λ windows.
        Follows (pattern_slot pattern supply) (slots_of windows.items slots)) }
{
    match supply {
        None => pattern_windows(alloc, &Full, slots),
        Some((period, budget)) => periodic_windows(alloc, pattern, period, budget, slots),
    }
}

fn periodic_windows(
    alloc: Global,
    pattern: Pattern,
    period: u64,
    budget: u64,
    slots: u64,
) -> Result<Vec<Window>, AllocError>
    requires { IsCoreSupply (Some (period, budget)) }
    ensures windows { IfOk result (λ windows. AreWindows windows.items slots) }
    ensures follows { IfOk result (λ windows.
        Follows (pattern_slot pattern (Some (period, budget))) (slots_of windows.items slots)) }
{
    match pattern {
        Pattern::Early => cyclic_windows(alloc, period, 0, budget, slots),
        Pattern::Late => cyclic_windows(alloc, period, period - budget, budget, slots),
        Pattern::Worst => pattern_windows(alloc, &Periodic { period, budget }, slots),
    }
}

/// The windows with `budget` slots of each period, from its slot `first` on.
fn cyclic_windows(
    alloc: Global,
    period: u64,
    first: u64,
    budget: u64,
    slots: u64,
) -> Result<Vec<Window>, AllocError>
    requires some_budget { 1 ≤ budget }
    requires in_period { first + budget ≤ period }
    ensures windows { IfOk result (λ windows. AreWindows windows.items slots) }
    ensures follows { IfOk result (λ windows.
        Follows (cyclic_slot period first budget) (slots_of windows.items slots)) }
{
    let mut windows = Vec::new(alloc);
    let mut from = first as u128;
    while from < slots as u128 {
        let until = (from + budget as u128).min(slots as u128);
        add_window(&mut windows, from as u64, until as u64)?;
        from += period as u128;
    }
    Ok(windows)
}
