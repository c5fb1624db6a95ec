ghost use Rattle.std.specs.Prelude.{◌∷◌, [], ℕ, List, OnOk};
ghost use Rattle.csv.specs.Reading.{default_config, records};
ghost use Rattle.csv_rows.specs.PlainText.{IsPlainText};
ghost use Rattle.csv_rows.specs.Reading.{records_of};
ghost use Rattle.csv_rows.specs.Row.{texts_of};
ghost use Rattle.csv_rows.specs.Taker.{Took};

use crate::near::near_four;
use crate::plain_text::{MARK, has_no_quote, split_record};
use crate::{RecordTaker, Records, Row};
use memchr::{memchr, memrchr};
use std::alloc::{AllocError, Global};

/// How the bytes of a text are taken.
#[derive(Clone, Copy, Debug, PartialEq, Eq)]
enum Way {
    /// None was taken yet.
    Front,
    /// So far they have no quote, no carriage return, and no mark at their front.
    Plain,
    /// As those of any text.
    Any,
}

/// Takes the records of a text whose bytes come piece by piece, in pieces of any lengths.
///
/// A record is handed on once a line feed ends it. Of a text with no quote, no carriage return and
/// no byte order mark at its front only the front of the record at hand is kept. From the piece on
/// that has the first of these, all is kept and read at the end.
#[derive(Drop)]
pub struct RecordFeed<T> {
    alloc: Global,
    taker: T,
    way: Way,
    /// Of a plain text a line feed, and behind it the front of the record at hand.
    kept: Vec<u8>,
}

/// Takes all records of a text.
fn take_all<T: RecordTaker>(alloc: Global, text: &[u8], taker: &mut T) -> Result<(), AllocError>
    requires { (start : T) × (read : List (List (List ℕ))) × T.has_taken start taker.old read }
    ensures { OnOk result (Took T.has_taken taker.old taker.new (records_of text.now)) }
{
    let mut records = Records::new(alloc, text);
    for _ in 0..u64::MAX {
        if !records.advance()? {
            return Ok(());
        }
        taker.take(&records.row())?;
    }
    Err(AllocError)
}

/// Takes all records of a plain text, wherever in a text it stands.
fn take_plain<T: RecordTaker>(alloc: Global, text: &[u8], taker: &mut T) -> Result<(), AllocError>
    requires plain { IsPlainText text.now }
    requires taken { (start : T) × (read : List (List (List ℕ)))
        × T.has_taken start taker.old read }
    ensures { OnOk result (Took T.has_taken taker.old taker.new
        (records default_config text.now)) }
{
    let mut fields = Vec::new(alloc);
    let mut left = text;
    loop {
        if let Some(line) = near_four(left) {
            taker.take(&Row::Split(&line.fields))?;
            left = line.rest;
            continue;
        }
        match split_record(left, &mut fields)? {
            Some(rest) => {
                take_fields(&fields, taker)?;
                left = rest;
            }
            None => return Ok(()),
        }
    }
}

/// Takes a record of these fields.
#[inline(never)]
fn take_fields<T: RecordTaker>(fields: &[&[u8]], taker: &mut T) -> Result<(), AllocError>
    requires { (start : T) × (read : List (List (List ℕ)))
        × T.has_taken start taker.old read }
    ensures { OnOk result (Took T.has_taken taker.old taker.new (texts_of fields.now ∷ [])) }
{
    taker.take(&Row::Split(fields))
}

impl<T: RecordTaker + Drop> RecordFeed<T> {
    ghost use Rattle.std.specs.Prelude.{◌≡◌, ◌<◌, ◌++◌, ◌∷◌, [], ℕ, List, length, OnOk, IfOk};
    ghost use Rattle.csv_rows.specs.Feed.{IsBegun, IsFed, TakesFirst};
    ghost use Rattle.csv_rows.specs.PlainText.{IsPlainText};
    ghost use Rattle.csv_rows.specs.Reading.{records_of};
    ghost use Rattle.csv_rows.specs.declared.feed.Way.TheVariants.{Front as at_front, Plain as as_plain};

    /// Before the first byte.
    pub fn new(alloc: Global, taker: T) -> RecordFeed<T>
        requires { T.has_taken taker taker [] }
        ensures { IsFed T.has_taken taker [] result }
    {
        RecordFeed {
            alloc,
            taker,
            way: Way::Front,
            kept: Vec::new(alloc),
        }
    }

    /// Takes the next bytes of the text.
    pub fn take(&mut self, piece: &[u8]) -> Result<(), AllocError>
        requires { (start : T) × (text : List ℕ) × IsFed T.has_taken start text self.old }
        ensures { (start : T) (text : List ℕ) → IsFed T.has_taken start text self.old
            → OnOk result (IsFed T.has_taken start (text ++ piece.now) self.new) }
    {
        match self.way {
            Way::Front => self.begin(piece),
            Way::Plain => self.go_on(piece),
            Way::Any => self.keep(piece),
        }
    }

    /// The records of the text, all of which the taker has taken.
    pub fn finish(self) -> Result<T, AllocError>
        requires { (start : T) × (text : List ℕ) × IsFed T.has_taken start text self }
        ensures { (start : T) (text : List ℕ) → IsFed T.has_taken start text self
            → IfOk result (λ taker. T.has_taken start taker (records_of text)) }
    {
        let mut taker = self.taker;
        take_all(self.alloc, &self.kept, &mut taker)?;
        Ok(taker)
    }

    /// Takes the first bytes of a text.
    fn begin(&mut self, piece: &[u8]) -> Result<(), AllocError>
        requires nothing { self.old.kept.items ≡ [] }
        requires way { self.old.way ≡ at_front }
        requires taken { (start : T) × (text : List ℕ)
            × TakesFirst T.has_taken start text self.old.taker piece.now }
        ensures { (start : T) (text : List ℕ)
            → TakesFirst T.has_taken start text self.old.taker piece.now
            → OnOk result (IsFed T.has_taken start text self.new) }
    {
        if piece.is_empty() {
            return Ok(());
        }
        if piece[0] == MARK {
            return self.keep(piece);
        }
        self.kept.push(b'\n')?;
        self.way = Way::Plain;
        self.go_on(piece)
    }

    /// Takes bytes that stand behind what is kept, all of which is read at the end.
    fn keep(&mut self, piece: &[u8]) -> Result<(), AllocError>
        ensures { (start : T) (text : List ℕ)
            → TakesFirst T.has_taken start text self.old.taker (self.old.kept.items ++ piece.now)
            → OnOk result (IsFed T.has_taken start text self.new) }
    {
        self.way = Way::Any;
        self.kept.extend_from_slice(piece)?;
        Ok(())
    }

    /// Takes bytes that stand behind what is kept of a plain text.
    fn go_on(&mut self, piece: &[u8]) -> Result<(), AllocError>
        requires way { self.old.way ≡ as_plain }
        requires begun { IsBegun self.old.kept.items }
        requires taken { (start : T) × (text : List ℕ)
            × TakesFirst T.has_taken start text self.old.taker (self.old.kept.items ++ piece.now) }
        ensures { (start : T) (text : List ℕ)
            → TakesFirst T.has_taken start text self.old.taker (self.old.kept.items ++ piece.now)
            → OnOk result (IsFed T.has_taken start text self.new) }
    {
        if !has_no_quote(piece) {
            return self.keep(piece);
        }
        let rest = self.end_line(piece)?;
        self.take_lines(rest)
    }

    /// Takes the record at hand, where the piece ends its line, and answers what is left of the
    /// piece behind that line.
    fn end_line<'p>(&mut self, piece: &'p [u8]) -> Result<&'p [u8], AllocError>
        requires begun { IsBegun self.old.kept.items }
        requires plain { IsPlainText piece.now }
        requires taken { (start : T) × (text : List ℕ)
            × TakesFirst T.has_taken start text self.old.taker (self.old.kept.items ++ piece.now) }
        ensures taken { (start : T) (text : List ℕ)
            → TakesFirst T.has_taken start text self.old.taker (self.old.kept.items ++ piece.now)
            → IfOk result (λ rest.
            TakesFirst T.has_taken start text self.new.taker (self.new.kept.items ++ rest.now)) }
        ensures begun { OnOk result (IsBegun self.new.kept.items) }
        ensures plain { IfOk result (λ rest. IsPlainText rest.now) }
        ensures none_at_hand { IfOk result (λ rest. 0 < length rest.now
            → self.new.kept.items ≡ 10 ∷ []) }
        ensures way { self.new.way ≡ self.old.way }
    {
        if self.kept.len() == 1 {
            return Ok(piece);
        }
        match memchr(b'\n', piece) {
            None => {
                self.kept.extend_from_slice(piece)?;
                Ok(&piece[piece.len()..])
            }
            Some(at) => {
                self.kept.extend_from_slice(&piece[..at + 1])?;
                take_plain(self.alloc, &self.kept, &mut self.taker)?;
                self.kept.truncate(1);
                Ok(&piece[at + 1..])
            }
        }
    }

    /// Takes the records whose lines end in a piece, and keeps the front of the next one. No
    /// record is at hand.
    fn take_lines(&mut self, piece: &[u8]) -> Result<(), AllocError>
        requires way { self.old.way ≡ as_plain }
        requires begun { IsBegun self.old.kept.items }
        requires plain { IsPlainText piece.now }
        requires none_at_hand { 0 < length piece.now → self.old.kept.items ≡ 10 ∷ [] }
        requires taken { (start : T) × (text : List ℕ)
            × TakesFirst T.has_taken start text self.old.taker (self.old.kept.items ++ piece.now) }
        ensures { (start : T) (text : List ℕ)
            → TakesFirst T.has_taken start text self.old.taker (self.old.kept.items ++ piece.now)
            → OnOk result (IsFed T.has_taken start text self.new) }
    {
        match memrchr(b'\n', piece) {
            None => self.kept.extend_from_slice(piece)?,
            Some(last) => {
                take_plain(self.alloc, &piece[..last + 1], &mut self.taker)?;
                self.kept.extend_from_slice(&piece[last + 1..])?;
            }
        }
        Ok(())
    }
}
