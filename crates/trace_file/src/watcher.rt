ghost use Rattle.std.specs.Prelude.{◌∷◌, ◌++◌, [], List, OnOk};
ghost use Rattle.tree_model.specs.View.{SystemView};
ghost use Rattle.trace_file.specs.declared.event.Event.{Event as EventView};
ghost use Rattle.trace_file.specs.Given.{IsBeforeEvent};

use crate::{Event, Rows};
use std::alloc::AllocError;
use tree_model::System;

/// What goes along with the events of a trace, each seen with what the rows before it leave behind.
pub trait EventWatcher {
    /// What the first value is once it has seen these events over a system.
    ghost has_seen: { SystemView → Self → Self → List EventView → Type 0 };

    /// Sees the next event, which keeps the rules of a trace as those before it do.
    fn see(&mut self, sys: &System, rows: &Rows, event: Event) -> Result<(), AllocError>
        requires { (start : Self) × (events : List EventView)
            × has_seen sys.now start self.old events
            × IsBeforeEvent sys.now events event rows.now }
        ensures { (start : Self) (events : List EventView)
            → has_seen sys.now start self.old events
            → IsBeforeEvent sys.now events event rows.now
            → OnOk result (has_seen sys.now start self.new (events ++ event ∷ [])) };
}

/// It keeps them.
impl EventWatcher for Vec<Event> {
    ghost use Rattle.std.specs.Prelude.{◌≡◌, ◌++◌};

    ghost has_seen = { λ sys start now events. now.items ≡ start.items ++ events };

    fn see(&mut self, _sys: &System, _rows: &Rows, event: Event) -> Result<(), AllocError> {
        self.push(event)?;
        Ok(())
    }
}

/// Nothing goes along: the rules alone are of interest.
#[derive(Drop)]
pub struct Unwatched;

impl EventWatcher for Unwatched {
    ghost has_seen = { λ sys start now events. Unit {0} };

    fn see(&mut self, _sys: &System, _rows: &Rows, _event: Event) -> Result<(), AllocError> {
        Ok(())
    }
}
