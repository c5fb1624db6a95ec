use crate::row_reader::RowReader;
use crate::rows::Rows;
use crate::spelling::{FourFields, four_fields, says_run, unit_of};
use crate::unit::Unit;
use crate::{EventWatcher, TraceFault};
use csv_rows::{RecordTaker, Row};
use std::alloc::AllocError;

/// How far the records of a trace were taken.
#[derive(Clone, Copy)]
pub enum Stage {
    /// The header comes next.
    Header,
    /// Rows come, whose moments are in this unit. So far they keep the rules.
    Rows(Unit),
    /// The first fault was found; what comes behind it is not looked at.
    Broken(TraceFault),
}

/// Takes the records of a trace, and hands the event of each row to a watcher.
#[derive(Drop)]
pub struct TraceTaker<'s, W> {
    pub reader: RowReader<'s>,
    pub stage: Stage,
    pub watcher: W,
}

/// What a whole trace leaves behind, which keeps the rules.
#[derive(Drop)]
pub struct Watched<W> {
    pub rows: Rows,
    pub watcher: W,
}

impl<'s, W: EventWatcher + Drop> RecordTaker for TraceTaker<'s, W> {
    ghost use Rattle.trace_file.specs.Fed.{Takes};

    ghost has_taken = { λ start now records. Takes W.has_seen start now records };

    #[inline(always)]
    fn take(&mut self, row: &Row) -> Result<(), AllocError> {
        let fields = four_fields(row);
        match self.stage {
            Stage::Header => {
                self.take_header(fields);
                Ok(())
            }
            Stage::Rows(unit) => self.take_row(unit, fields),
            Stage::Broken(_) => Ok(()),
        }
    }
}

impl<'s, W: EventWatcher + Drop> TraceTaker<'s, W> {
    ghost use Rattle.std.specs.Prelude.{◌≡◌, ◌++◌, ◌∷◌, [], ℕ, List, OnOk, IfOk, IfErr};
    ghost use Rattle.csv_rows.specs.Row.{fields_of};
    ghost use Rattle.tree_model.specs.View.{SystemView};
    ghost use Rattle.trace_file.specs.File.{IsFileFault, rows_of};
    ghost use Rattle.trace_file.specs.Given.{HasTaken, HasWatched};
    ghost use Rattle.trace_file.specs.inner.Spelt.{AreFieldsOf};
    ghost use Rattle.trace_file.specs.declared.trace_taker.Stage.TheVariants.{Header as at_header, Rows as at_rows};

    /// Takes the header, of these four fields.
    #[inline(never)]
    fn take_header(&mut self, fields: Option<FourFields>)
        requires { self.old.stage ≡ at_header }
        ensures { (row : List (List ℕ)) → AreFieldsOf row fields.entry
            → (sys : SystemView) (start : W) (records : List (List (List ℕ)))
            → HasTaken W.has_seen sys start records self.old
            → HasTaken W.has_seen sys start (records ++ row ∷ []) self.new }
    {
        self.stage = match unit_of(fields) {
            Some(unit) => Stage::Rows(unit),
            None => Stage::Broken(TraceFault::BadHeader),
        };
    }

    /// Takes a row behind the header, of these four fields. Most rows say `run`, so the steps of
    /// these stand apart.
    #[inline(always)]
    fn take_row(&mut self, unit: Unit, fields: Option<FourFields>) -> Result<(), AllocError>
        requires stage { self.old.stage ≡ at_rows unit }
        requires read { (row : List (List ℕ)) × AreFieldsOf row fields }
        requires taken { (sys : SystemView) × (start : W) × (records : List (List (List ℕ)))
            × HasTaken W.has_seen sys start records self.old }
        ensures { (row : List (List ℕ)) → AreFieldsOf row fields.entry
            → (sys : SystemView) (start : W) (records : List (List (List ℕ)))
            → HasTaken W.has_seen sys start records self.old
            → OnOk result (HasTaken W.has_seen sys start (records ++ row ∷ []) self.new) }
    {
        if says_run(fields) {
            return self.take_any_row(unit, fields);
        }
        self.take_other_row(unit, fields)
    }

    /// Takes a row behind the header that does not say `run`.
    #[inline(never)]
    fn take_other_row(&mut self, unit: Unit, fields: Option<FourFields>) -> Result<(), AllocError>
        requires stage { self.old.stage ≡ at_rows unit }
        requires read { (row : List (List ℕ)) × AreFieldsOf row fields }
        requires taken { (sys : SystemView) × (start : W) × (records : List (List (List ℕ)))
            × HasTaken W.has_seen sys start records self.old }
        ensures { (row : List (List ℕ)) → AreFieldsOf row fields.entry
            → (sys : SystemView) (start : W) (records : List (List (List ℕ)))
            → HasTaken W.has_seen sys start records self.old
            → OnOk result (HasTaken W.has_seen sys start (records ++ row ∷ []) self.new) }
    {
        self.take_any_row(unit, fields)
    }

    /// Takes a row behind the header, whatever it says.
    #[inline(always)]
    fn take_any_row(&mut self, unit: Unit, fields: Option<FourFields>) -> Result<(), AllocError>
        requires stage { self.old.stage ≡ at_rows unit }
        requires read { (row : List (List ℕ)) × AreFieldsOf row fields }
        requires taken { (sys : SystemView) × (start : W) × (records : List (List (List ℕ)))
            × HasTaken W.has_seen sys start records self.old }
        ensures { (row : List (List ℕ)) → AreFieldsOf row fields.entry
            → (sys : SystemView) (start : W) (records : List (List (List ℕ)))
            → HasTaken W.has_seen sys start records self.old
            → OnOk result (HasTaken W.has_seen sys start (records ++ row ∷ []) self.new) }
    {
        if self.reader.row == u64::MAX {
            return Err(AllocError);
        }
        match self.reader.judged(unit, fields) {
            Ok(event) => {
                let sys = self.reader.sys;
                self.watcher.see(sys, &self.reader.rows, event)?;
                self.reader.rows.take(sys, event);
                self.reader.row += 1;
            }
            Err(fault) => self.stage = Stage::Broken(fault),
        }
        Ok(())
    }

    /// What the whole trace leaves behind, or its first fault.
    pub fn end(self) -> Result<Watched<W>, TraceFault>
        ensures watched { (sys : SystemView) (start : W) (records : List (List (List ℕ)))
            → HasTaken W.has_seen sys start records self.entry
            → IfOk result (λ w. HasWatched W.has_seen sys start records w) }
        ensures fault { (sys : SystemView) (start : W) (records : List (List (List ℕ)))
            → HasTaken W.has_seen sys start records self.entry
            → IfErr result (IsFileFault sys (rows_of records)) }
    {
        match self.stage {
            Stage::Header => Err(TraceFault::BadHeader),
            Stage::Broken(fault) => Err(fault),
            Stage::Rows(_) => {
                if !self.reader.rows.ended() {
                    return Err(TraceFault::NoEnd(self.reader.row));
                }
                Ok(Watched {
                    rows: self.reader.rows,
                    watcher: self.watcher,
                })
            }
        }
    }
}
