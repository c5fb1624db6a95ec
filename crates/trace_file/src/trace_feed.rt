ghost use Rattle.std.specs.Prelude.{◌≡◌, ◌⊎◌, ◌∷◌, [], ℕ, List, IfOk, IfErr};
ghost use Rattle.csv_rows.specs.Reading.{records_of};
ghost use Rattle.trace_file.specs.declared.fault.TraceFault.TheVariants.{NoMemory};
ghost use Rattle.trace_file.specs.File.{IsFileFault, rows_of};
ghost use Rattle.trace_file.specs.Given.{HasWatched};

use crate::row_reader::RowReader;
use crate::trace_taker::{Stage, TraceTaker, Watched};
use crate::{EventWatcher, TraceFault};
use csv_rows::RecordFeed;
use std::alloc::{AllocError, Global};
use tree_model::System;

/// Takes the text of a trace piece by piece, in pieces of any lengths, and hands each event to a
/// watcher. No event is kept, and of the text no more than `RecordFeed` keeps.
#[derive(Drop)]
pub struct TraceFeed<'s, W> {
    records: RecordFeed<TraceTaker<'s, W>>,
}

impl<'s, W: EventWatcher + Drop> TraceFeed<'s, W> {
    ghost use Rattle.std.specs.Prelude.{◌≡◌, ◌⊎◌, ◌++◌, [], ℕ, List, OnOk, IfOk, IfErr};
    ghost use Rattle.csv_rows.specs.Reading.{records_of};
    ghost use Rattle.tree_model.specs.View.{SystemView};
    ghost use Rattle.trace_file.specs.declared.fault.TraceFault.TheVariants.{NoMemory};
    ghost use Rattle.trace_file.specs.File.{IsFileFault, rows_of};
    ghost use Rattle.trace_file.specs.Given.{HasWatched};
    ghost use Rattle.trace_file.specs.Fed.{IsFedTrace};

    /// Before the first byte.
    pub fn new(alloc: Global, sys: &'s System, watcher: W) -> Result<TraceFeed<'s, W>, AllocError>
        requires { W.has_seen sys.now watcher watcher [] }
        ensures { IfOk result (IsFedTrace W.has_seen sys.now watcher []) }
    {
        let reader = RowReader::new(alloc, sys)?;
        let taker = TraceTaker {
            reader,
            stage: Stage::Header,
            watcher,
        };
        Ok(TraceFeed {
            records: RecordFeed::new(alloc, taker),
        })
    }

    /// Takes the next bytes of the text.
    pub fn take(&mut self, piece: &[u8]) -> Result<(), AllocError>
        requires { (sys : SystemView) × (start : W) × (text : List ℕ)
            × IsFedTrace W.has_seen sys start text self.old }
        ensures { (sys : SystemView) (start : W) (text : List ℕ)
            → IsFedTrace W.has_seen sys start text self.old
            → OnOk result (IsFedTrace W.has_seen sys start (text ++ piece.now) self.new) }
    {
        self.records.take(piece)
    }

    /// What the watcher saw of the whole text, whose events keep the rules of a trace; or the
    /// first rule that the text breaks, with its row.
    pub fn finish(self) -> Result<Watched<W>, TraceFault>
        requires { (sys : SystemView) × (start : W) × (text : List ℕ)
            × IsFedTrace W.has_seen sys start text self }
        ensures watched { (sys : SystemView) (start : W) (text : List ℕ)
            → IsFedTrace W.has_seen sys start text self.entry
            → IfOk result (HasWatched W.has_seen sys start (records_of text)) }
        ensures fault { (sys : SystemView) (start : W) (text : List ℕ)
            → IsFedTrace W.has_seen sys start text self.entry
            → IfErr result (λ fault. (fault ≡ NoMemory)
            ⊎ IsFileFault sys (rows_of (records_of text)) fault) }
    {
        match self.records.finish() {
            Ok(taker) => taker.end(),
            Err(_) => Err(TraceFault::NoMemory),
        }
    }
}

/// What a watcher sees of a whole text.
pub fn watch_trace<W: EventWatcher + Drop>(
    alloc: Global,
    sys: &System,
    bytes: &[u8],
    watcher: W,
) -> Result<Watched<W>, TraceFault>
    requires { W.has_seen sys.now watcher watcher [] }
    ensures watched { IfOk result
        (HasWatched W.has_seen sys.now watcher (records_of bytes.now)) }
    ensures fault { IfErr result (λ fault. (fault ≡ NoMemory)
        ⊎ IsFileFault sys.now (rows_of (records_of bytes.now)) fault) }
{
    let Ok(mut feed) = TraceFeed::new(alloc, sys, watcher) else {
        return Err(TraceFault::NoMemory);
    };
    if feed.take(bytes).is_err() {
        return Err(TraceFault::NoMemory);
    }
    feed.finish()
}
