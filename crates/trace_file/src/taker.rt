ghost use Rattle.std.specs.Prelude.{◌∷◌, [], List, OnOk};
ghost use Rattle.trace_file.specs.Taker.{Took};
ghost use Rattle.trace_file.specs.declared.event.Event.{Event as EventView};

use crate::Event;
use std::alloc::AllocError;

/// What takes the events of a trace one by one.
pub trait EventTaker {
    /// What the first value is once it has taken these events.
    ghost has_taken: { Self → Self → List EventView → Type 0 };

    /// Takes one event more.
    fn take(&mut self, event: Event) -> Result<(), AllocError>
        ensures { OnOk result (Took has_taken self.old self.new (event ∷ [])) };
}

/// It keeps them.
impl EventTaker for Vec<Event> {
    ghost use Rattle.std.specs.Prelude.{◌≡◌, ◌++◌};

    ghost has_taken = { λ start now events. now.items ≡ start.items ++ events };

    fn take(&mut self, event: Event) -> Result<(), AllocError> {
        self.push(event)?;
        Ok(())
    }
}
