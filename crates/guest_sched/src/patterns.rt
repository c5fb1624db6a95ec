ghost use Rattle.std.specs.Prelude.{◌≡◌, length, IfOk};
ghost use Rattle.slot_model.specs.Supply.{Follows};
ghost use Rattle.guest_sched.specs.Spans.{AreWindows, slots_of};

use crate::windows::add_window;
use std::alloc::{AllocError, Global};
use supply_bound::{Supply, Window};

/// The windows of a list of slots: one for each stretch of slots that are given.
pub fn windows_of(alloc: Global, given: &[bool]) -> Result<Vec<Window>, AllocError>
    ensures windows { IfOk result (λ windows. AreWindows windows.items (length given.now)) }
    ensures same { IfOk result (λ windows. slots_of windows.items (length given.now) ≡ given.now) }
{
    let mut windows = Vec::new(alloc);
    for x in 0..given.len() {
        if given[x] {
            add_window(&mut windows, x as u64, x as u64 + 1)?;
        }
    }
    Ok(windows)
}

/// So many windows are made room for at first, where there may be as many.
const FIRST_ROOM: u64 = 512;

/// The windows of the first `slots` places of the worst pattern of a supply. It costs time for each
/// window, and none for a slot.
pub fn pattern_windows<F: Supply>(
    alloc: Global,
    supply: &F,
    slots: u64,
) -> Result<Vec<Window>, AllocError>
    ensures windows { IfOk result (λ windows. AreWindows windows.items slots) }
    ensures follows { IfOk result (λ windows. Follows (F.pattern supply.now)
        (slots_of windows.items slots)) }
{
    let cycles = slots / supply.cycle().max(1);
    let mut windows = Vec::with_capacity(alloc, cycles.min(FIRST_ROOM) as usize + 1)?;
    let mut next = supply.next_window(0, slots);
    while let Some(window) = next {
        windows.push(window)?;
        next = supply.window_after(window, slots);
    }
    Ok(windows)
}
