ghost use Rattle.std.specs.Prelude.{◌≡◌, ◌/◌, ◌∷◌, ◌++◌, [], IfOk, OnOk};
ghost use Rattle.csv.specs.Writing.{default_writer, row_text};
ghost use Rattle.csv_rows.specs.Printing.{text_of};
ghost use Rattle.csv_rows.specs.Reading.{records_of};
ghost use Rattle.std.specs.List.{list_all};
ghost use Rattle.trace_printer.specs.inner.Endings.{AreEndings, FitsWord};
ghost use Rattle.trace_file.specs.File.{Spells};
ghost use Rattle.trace_printer.specs.Printing.{is_whole, unit_for, header_row, event_row, printed_rows};
ghost use Rattle.trace_file.specs.Unit.{scale};
ghost use Rattle.tree_model.specs.System.{IsSystem};
ghost use Rattle.trace_file.specs.Rules.{Kept};

use crate::endings::{Endings, row_text};
use crate::event_fields::first_field;
use std::alloc::{AllocError, Global};
use trace_file::{Event, EventTaker, Trace, Unit, event_at};
use tree_model::{MAX_PARTS, System};

/// Microseconds where each moment is a whole number of them, else nanoseconds.
fn unit_for(events: &[Event]) -> Unit
    ensures { result ≡ unit_for events.now }
{
    if are_whole(events) {
        return Unit::Microseconds;
    }
    Unit::Nanoseconds
}

fn are_whole(events: &[Event]) -> bool
    ensures { result ≡ list_all is_whole events.now }
{
    events.iter().all(|event| event.at % 1000 == 0)
}

/// The text of the header.
fn header(alloc: Global, unit: Unit) -> Result<Vec<u8>, AllocError>
    ensures { IfOk result (λ text. text.items ≡ text_of (header_row unit ∷ [])) }
{
    let (core, word, vcpu) = ("core".as_bytes(), "what".as_bytes(), "vcpu".as_bytes());
    row_text(alloc, first_field(unit), core, word, vcpu)
}

/// A moment in this unit.
fn in_unit(unit: Unit, at: u64) -> u64
    ensures { result ≡ at / scale unit }
{
    match unit {
        Unit::Microseconds => at / 1000,
        Unit::Nanoseconds => at,
    }
}

/// Writes the row of an event.
#[inline(always)]
fn write_event(
    text: &mut Vec<u8>,
    endings: &mut Endings,
    unit: Unit,
    event: Event,
) -> Result<(), AllocError>
    ensures are { AreEndings endings.old.sys.now endings.old.made.items
        → OnOk result (AreEndings endings.new.sys.now endings.new.made.items) }
    ensures sys { endings.new.sys ≡ endings.old.sys }
    ensures written { AreEndings endings.old.sys.now endings.old.made.items
        → OnOk result (text.new.items ≡ text.old.items
        ++ row_text default_writer (event_row endings.old.sys.now unit event)) }
    ensures named { AreEndings endings.old.sys.now endings.old.made.items
        → OnOk result (FitsWord endings.old.sys.now event.core event.what) }
{
    endings.write(text, in_unit(unit, event.at), event.core, event.what)
}

/// The text of a trace, whose events it takes one by one.
#[derive(Drop)]
pub struct TracePrinter<'s> {
    text: Vec<u8>,
    unit: Unit,
    endings: Endings<'s>,
}

impl<'s> TracePrinter<'s> {
    ghost use Rattle.std.specs.Prelude.{◌≡◌, [], List, IfOk};
    ghost use Rattle.csv_rows.specs.Printing.{text_of};
    ghost use Rattle.csv_rows.specs.Reading.{records_of};
    ghost use Rattle.trace_file.specs.File.{Spells};
    ghost use Rattle.trace_printer.specs.Printer.{HasPrinted};
    ghost use Rattle.trace_printer.specs.Printing.{unit_for, printed_rows};
    ghost use Rattle.trace_file.specs.Rules.{Kept};
    ghost use Rattle.trace_file.specs.declared.event.Event.{Event as EventView};
    ghost use Rattle.tree_model.specs.System.{IsSystem};
    ghost use Rattle.tree_model.specs.View.{SystemView};

    /// Before the first event of a trace whose moments it is to print in this unit.
    pub fn new(alloc: Global, sys: &'s System, unit: Unit) -> Result<TracePrinter<'s>, AllocError>
        ensures { IfOk result (HasPrinted sys.now unit []) }
    {
        Ok(TracePrinter {
            text: header(alloc, unit)?,
            unit,
            endings: Endings::new(alloc, sys)?,
        })
    }

    /// The text of the events that it has taken.
    pub fn finish(self) -> Vec<u8>
        ensures text { (sys : SystemView) (events : List EventView)
            → HasPrinted sys (unit_for events) events self.entry
            → result.items ≡ text_of (printed_rows sys events) }
        ensures reads_back { (sys : SystemView) (events : List EventView)
            → HasPrinted sys (unit_for events) events self.entry → IsSystem sys → Kept sys events
            → Spells sys (records_of result.items) events }
    {
        self.text
    }
}

impl<'s> EventTaker for TracePrinter<'s> {
    ghost use Rattle.trace_printer.specs.Printer.{HasPrinted};

    ghost has_taken = { λ start now events.
        HasPrinted start.endings.sys.now start.unit events now };

    #[inline(always)]
    fn take(&mut self, event: Event) -> Result<(), AllocError> {
        write_event(&mut self.text, &mut self.endings, self.unit, event)?;
        Ok(())
    }
}

/// What the type of a system keeps.
fn check_system(sys: &System)
    ensures { IsSystem sys.now }
{
    prove!(sys.parts().len() <= MAX_PARTS);
}

/// The text of a trace that keeps the rules, in version 1 where each moment is a whole number of
/// microseconds, else in version 2.
pub fn print_trace(alloc: Global, sys: &System, trace: &Trace) -> Result<Vec<u8>, AllocError>
    requires { Kept sys.now trace.now }
    ensures text { IfOk result (λ text. text.items ≡ text_of (printed_rows sys.now trace.now)) }
    ensures reads_back { IfOk result (λ text. Spells sys.now (records_of text.items) trace.now) }
{
    check_system(sys);
    let events = trace.events();
    let unit = unit_for(events);
    let mut printer = TracePrinter::new(alloc, sys, unit)?;
    for n in 0..events.len() {
        printer.take(event_at(events, n))?;
    }
    Ok(printer.finish())
}
