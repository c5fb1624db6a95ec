ghost use Rattle.std.specs.Prelude.{◌≡◌, ◌∷◌, ◌++◌, [], decimal, IfOk, IfSome, OnOk};
ghost use Rattle.csv_rows.specs.Printing.{text_of};
ghost use Rattle.trace_printer.specs.inner.Endings.{FitsWord, IsEnding, ending_text};
ghost use Rattle.trace_printer.specs.Printing.{word_of, core_field, vcpu_field};
ghost use Rattle.trace_file.specs.Rules.{named};

use crate::event_fields::{core_field, vcpu_field, word_of};
use crate::row_tail::RowTail;
use csv_rows::RowWriter;
use std::alloc::{AllocError, Global};
use trace_file::What;
use tree_model::System;

/// What the rows of an event have behind its moment.
#[derive(Drop)]
pub struct Ending {
    pub core: u32,
    pub what: What,
    pub text: RowTail,
}

impl Ending {
    ghost use Rattle.std.specs.Prelude.{◌≡◌, ◌↔◌, IsTrue};

    /// Whether it is that of this event.
    fn is_of(&self, core: u32, what: What) -> bool
        ensures { IsTrue result ↔ (self.now.core ≡ core) × (self.now.what ≡ what) }
    {
        self.core == core && self.what == what
    }
}

/// The text of a row of four fields.
pub fn row_text(
    alloc: Global,
    at: &[u8],
    core: &[u8],
    word: &[u8],
    vcpu: &[u8],
) -> Result<Vec<u8>, AllocError>
    ensures { IfOk result (λ text.
        text.items ≡ text_of ((at.now ∷ core.now ∷ word.now ∷ vcpu.now ∷ []) ∷ [])) }
{
    let mut rows = RowWriter::new(alloc);
    rows.write(&[at, core, word, vcpu])?;
    rows.finish()
}

/// The ending of an event.
fn ending_of(alloc: Global, sys: &System, core: u32, what: What) -> Result<Ending, AllocError>
    ensures is { IfOk result (IsEnding sys.now) }
    ensures core { IfOk result (λ e. e.core ≡ core) }
    ensures what { IfOk result (λ e. e.what ≡ what) }
{
    let vcpu = vcpu_field(sys, what.named());
    let text = row_text(
        alloc,
        "".as_bytes(),
        core_field(sys, core, what),
        word_of(what),
        vcpu,
    )?;
    Ok(Ending {
        core,
        what,
        text: RowTail::new(alloc, &text)?,
    })
}

/// Adds the row of an event with this moment, and keeps its ending.
#[inline(never)]
fn write_first(
    alloc: Global,
    sys: &System,
    kept: &mut Option<Ending>,
    text: &mut Vec<u8>,
    at: u64,
    core: u32,
    what: What,
) -> Result<(), AllocError>
    ensures is { OnOk result (IfSome kept.new (IsEnding sys.now)) }
    ensures text { OnOk result
        (text.new.items ≡ text.old.items ++ decimal at ++ ending_text sys.now core what) }
    ensures named { OnOk result (FitsWord sys.now core what) }
{
    let mut ending = ending_of(alloc, sys, core, what)?;
    ending.text.write(text, at)?;
    *kept = Some(ending);
    Ok(())
}

/// Adds the row of an event with this moment, by the ending that is kept where it is its own.
#[inline(always)]
fn write_row(
    alloc: Global,
    sys: &System,
    kept: &mut Option<Ending>,
    text: &mut Vec<u8>,
    at: u64,
    core: u32,
    what: What,
) -> Result<(), AllocError>
    ensures is { IfSome kept.old (IsEnding sys.now)
        → OnOk result (IfSome kept.new (IsEnding sys.now)) }
    ensures text { IfSome kept.old (IsEnding sys.now) → OnOk result
        (text.new.items ≡ text.old.items ++ decimal at ++ ending_text sys.now core what) }
    ensures named { IfSome kept.old (IsEnding sys.now) → OnOk result (FitsWord sys.now core what) }
{
    match kept {
        Some(ending) if ending.is_of(core, what) => ending.text.write(text, at),
        _ => write_first(alloc, sys, kept, text, at, core, what),
    }
}

/// The endings of a trace's rows, each made where it comes first.
#[derive(Drop)]
pub struct Endings<'s> {
    alloc: Global,
    sys: &'s System,
    made: Vec<Option<Ending>>,
}

impl<'s> Endings<'s> {
    ghost use Rattle.std.specs.Prelude.{◌≡◌, ◌++◌, decimal, IfOk, OnOk};
    ghost use Rattle.trace_printer.specs.inner.Endings.{AreEndings, FitsWord, place_of, ending_text};

    /// Before the first row.
    pub fn new(alloc: Global, sys: &'s System) -> Result<Endings<'s>, AllocError>
        ensures are { IfOk result (λ endings. AreEndings sys.now endings.made.items) }
        ensures sys { IfOk result (λ endings. endings.sys.now ≡ sys.now) }
    {
        let mut made = Vec::new(alloc);
        for _ in 0..4 * sys.parts().len() + sys.cores().len() + 1 {
            made.push(None)?;
        }
        Ok(Endings { alloc, sys, made })
    }

    /// Where the ending of an event is kept.
    fn place(&self, core: u32, what: What) -> usize
        ensures { result ≡ place_of self.now.sys.now core what }
    {
        let parts = self.sys.parts().len();
        match what {
            What::Start(v) => v as usize,
            What::Wake(v) => parts + v as usize,
            What::Block(v) => 2 * parts + v as usize,
            What::Run(v) => 3 * parts + v as usize,
            What::Stop => 4 * parts + core as usize,
            What::End => 4 * parts + self.sys.cores().len(),
        }
    }

    /// Adds the row of an event with this moment, in the unit of the trace.
    #[inline(always)]
    pub fn write(
        &mut self,
        text: &mut Vec<u8>,
        at: u64,
        core: u32,
        what: What,
    ) -> Result<(), AllocError>
        ensures are { AreEndings self.old.sys.now self.old.made.items
            → OnOk result (AreEndings self.new.sys.now self.new.made.items) }
        ensures sys { self.new.sys ≡ self.old.sys }
        ensures text { AreEndings self.old.sys.now self.old.made.items → OnOk result
            (text.new.items
            ≡ text.old.items ++ decimal at ++ ending_text self.old.sys.now core what) }
        ensures named { AreEndings self.old.sys.now self.old.made.items
            → OnOk result (FitsWord self.old.sys.now core what) }
    {
        let place = self.place(core, what);
        if place < self.made.len() {
            let kept = &mut self.made[place];
            return write_row(self.alloc, self.sys, kept, text, at, core, what);
        }
        write_first(self.alloc, self.sys, &mut None, text, at, core, what)
    }
}
