use crate::names::Names;
use crate::rows::Rows;
use crate::spelling::{FourFields, Spelt, spell};
use crate::unit::Unit;
use crate::{Event, TraceFault};
use std::alloc::{AllocError, Global};
use tree_model::System;

/// What the rows of a trace say, each behind those before it.
#[derive(Drop)]
pub struct RowReader<'s> {
    pub sys: &'s System,
    pub names: Names<'s>,
    /// What the rows so far leave behind.
    pub rows: Rows,
    /// The row of the file that is read next.
    pub row: u64,
}

impl<'s> RowReader<'s> {
    ghost use Rattle.std.specs.Prelude.{◌≡◌, List, ℕ, length, IfOk, IfErr, Some, None, true, false};
    ghost use Rattle.tree_model.specs.System.{IsSystem};
    ghost use Rattle.trace_file.specs.Events.{has_ended};
    ghost use Rattle.trace_file.specs.File.{row_rules, is_row, event_of, events_of};
    ghost use Rattle.trace_file.specs.Named.{AreNames};
    ghost use Rattle.trace_file.specs.Given.{IsBehindRows};
    ghost use Rattle.trace_file.specs.inner.Fresh.{IsFresh};
    ghost use Rattle.trace_file.specs.inner.Spelt.{AreFieldsOf};

    /// Before the first row.
    pub fn new(alloc: Global, sys: &'s System) -> Result<RowReader<'s>, AllocError>
        ensures { IfOk result (IsFresh sys.now) }
    {
        Ok(RowReader {
            sys,
            names: Names::new(alloc, sys)?,
            rows: Rows::new(sys),
            row: 2,
        })
    }

    /// The event of the next row, or the first rule that this row breaks.
    #[inline(always)]
    pub fn judged(&self, unit: Unit, fields: Option<FourFields>) -> Result<Event, TraceFault>
        requires system { IsSystem self.now.sys.now }
        requires names { AreNames self.now.sys.now self.now.names }
        ensures event { (row : List (List ℕ)) → AreFieldsOf row fields.entry
            → (rows : List (List (List ℕ))) → IsBehindRows unit rows self.now
            → IfOk result (λ event. (row_rules self.now.sys.now unit rows row ≡ None)
            × (event ≡ event_of self.now.sys.now unit row)) }
        ensures fault { (row : List (List ℕ)) → AreFieldsOf row fields.entry
            → (rows : List (List (List ℕ))) → IsBehindRows unit rows self.now
            → IfErr result (λ fault. row_rules self.now.sys.now unit rows row ≡ Some fault) }
    {
        let event = match self.spelled(unit, fields) {
            Ok(event) => event,
            Err(fault) => return Err(fault),
        };
        match self.rows.event_fault(self.sys, event, self.row) {
            Some(fault) => Err(fault),
            None => Ok(event),
        }
    }

    /// The event of the next row, where it is one and no end came before it.
    #[inline(always)]
    fn spelled(&self, unit: Unit, fields: Option<FourFields>) -> Result<Event, TraceFault>
        requires { AreNames self.now.sys.now self.now.names }
        ensures event { (row : List (List ℕ)) → AreFieldsOf row fields.entry
            → (rows : List (List (List ℕ))) → IsBehindRows unit rows self.now
            → IfOk result (λ event.
            (has_ended (events_of self.now.sys.now unit rows) (length rows) ≡ false)
            × (is_row row ≡ true) × (event ≡ event_of self.now.sys.now unit row)) }
        ensures fault { (row : List (List ℕ)) → AreFieldsOf row fields.entry
            → (rows : List (List (List ℕ))) → IsBehindRows unit rows self.now
            → IfErr result (λ fault. row_rules self.now.sys.now unit rows row ≡ Some fault) }
    {
        if self.rows.ended() {
            return Err(TraceFault::AfterEnd(self.row));
        }
        match spell(self.sys, &self.names, unit, fields) {
            Spelt::Bad => Err(TraceFault::BadRow(self.row)),
            Spelt::TooLate => Err(TraceFault::OutOfRange(self.row)),
            Spelt::Spelled(event) => Ok(event),
        }
    }
}
