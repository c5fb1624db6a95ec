ghost use Rattle.std.specs.Prelude.{◌≡◌, ℕ, ◌≤◌, ◌<◌, Option, Some, [], length, map, slice_index, slice_get, MatchOption, IfOk, OnOk};
ghost use Rattle.tree_model.specs.declared.system.TheConstants.{MAX_CORES};
ghost use Rattle.trace_file.specs.declared.event.Event.{Event as EventView};
ghost use Rattle.trace_file.specs.Taker.{Took};
ghost use Rattle.rtds_sim.specs.inner.Lists.{list_at};
ghost use Rattle.rtds_sim.specs.inner.Telling.{told_by, AreAtSlots, AreTold};
ghost use Rattle.rtds_sim.specs.inner.Soonest.{next_moment, AreNever, IsSoonest};

use std::alloc::{AllocError, Global};
use trace_file::{Event, EventTaker};
use tree_model::{MAX_CORES, System};

/// Stands where a core has nothing more to tell. No slot begins at it.
const NEVER: u64 = u64::MAX;

/// What each core tells over some slots, in order.
#[derive(Drop)]
pub struct Switches {
    pub lists: Vec<Vec<Event>>,
}

impl Switches {
    /// Where no core of a system tells anything.
    pub fn new(alloc: Global, sys: &System) -> Result<Switches, AllocError>
        ensures one_each { IfOk result (λ made. length made.lists.items ≡ length sys.now.cores) }
        ensures empty { IfOk result (λ made. (c : ℕ) → list_at made.lists.items c ≡ []) }
    {
        let mut lists = Vec::new(alloc);
        for _ in 0..sys.cores().len() {
            lists.push(Vec::new(alloc))?;
        }
        Ok(Switches { lists })
    }

    /// Tells it slot by slot, and at each slot core by core, and forgets it.
    pub fn tell<T: EventTaker>(&mut self, events: &mut T) -> Result<(), AllocError>
        requires few { length self.old.lists.items ≤ MAX_CORES }
        ensures told { OnOk result ((f : ℕ → ℕ → Option EventView) (x m : ℕ) → AreAtSlots f
            → AreTold f x m (length self.old.lists.items) self.old.lists.items
            → Took T.has_taken events.old events.new
            (told_by f x (length self.old.lists.items) m)) }
        ensures one_each { OnOk result
            (length self.new.lists.items ≡ length self.old.lists.items) }
        ensures empty { OnOk result ((c : ℕ) → list_at self.new.lists.items c ≡ []) }
    {
        tell_all(&self.lists, events)?;
        self.clear();
        Ok(())
    }

    /// Forgets all. The room of the lists stays.
    fn clear(&mut self)
        ensures one_each { length self.new.lists.items ≡ length self.old.lists.items }
        ensures empty { (c : ℕ) → list_at self.new.lists.items c ≡ [] }
    {
        for c in 0..self.lists.len() {
            self.lists[c].clear();
        }
    }
}

/// The list of core `core`.
fn list_of(lists: &[Vec<Event>], core: usize) -> &[Event]
    requires { core < length lists.now }
    ensures { result.now ≡ list_at lists.now core }
{
    &lists[core]
}

/// The event of a list at a place.
fn event_at(events: &[Event], place: usize) -> Event
    requires { place < length events.now }
    ensures { slice_get events.now place ≡ Some result }
{
    events[place]
}

/// The moment of the event of a list that is told next, where `told` of them are told.
fn next_moment(events: &[Event], told: usize) -> u64
    ensures { result ≡ next_moment events.now told }
{
    if told < events.len() {
        events[told].at
    } else {
        NEVER
    }
}

/// Sets the moments of the cores to those of their first events.
fn set_first_moments(moments: &mut [u64], lists: &[Vec<Event>])
    requires { length lists.now ≤ length moments.old }
    ensures room { length moments.new ≡ length moments.old }
    ensures moments { (c : ℕ) → c < length lists.now
        → slice_index moments.new c ≡ next_moment (list_at lists.now c) 0 }
{
    for c in 0..lists.len() {
        moments[c] = next_moment(list_of(lists, c), 0);
    }
}

/// The first core, of the first `cores`, whose next event is soonest, if any has one.
fn soonest(moments: &[u64], cores: usize) -> Option<usize>
    requires { cores ≤ length moments.now }
    ensures { MatchOption result (AreNever moments.now cores) (IsSoonest moments.now cores) }
{
    let mut least = NEVER;
    let mut first = 0;
    for c in 0..cores {
        if moments[c] < least {
            least = moments[c];
            first = c;
        }
    }
    if least < NEVER { Some(first) } else { None }
}

/// Tells the lists, slot by slot, and at each slot core by core.
#[inline(never)]
fn tell_all<T: EventTaker>(lists: &[Vec<Event>], events: &mut T) -> Result<(), AllocError>
    requires { length lists.now ≤ MAX_CORES }
    ensures { OnOk result ((f : ℕ → ℕ → Option EventView) (x m : ℕ) → AreAtSlots f
        → AreTold f x m (length lists.now) lists.now
        → Took T.has_taken events.old events.new (told_by f x (length lists.now) m)) }
{
    let mut told = [0usize; MAX_CORES];
    let mut moments = [NEVER; MAX_CORES];
    set_first_moments(&mut moments, lists);
    while let Some(core) = soonest(&moments, lists.len()) {
        let list = list_of(lists, core);
        let place = told[core];
        events.take(event_at(list, place))?;
        let next = place + 1;
        told[core] = next;
        moments[core] = next_moment(list, next);
    }
    Ok(())
}
