ghost use Rattle.std.specs.Prelude.{◌≡◌, ◌<◌, false, Some, length, ℕ};
ghost use Rattle.trace_file.specs.Events.{is_end};
ghost use Rattle.trace_file.specs.File.{is_empty};
ghost use Rattle.trace_printer.specs.Printing.{first_field, word_of, core_field, vcpu_field};
ghost use Rattle.tree_model.specs.System.{core_at, part_at};

use trace_file::{Unit, What};
use tree_model::System;

/// The first field of the header.
pub fn first_field(unit: Unit) -> &'static [u8]
    ensures { result.now ≡ first_field unit }
{
    match unit {
        Unit::Microseconds => "at".as_bytes(),
        Unit::Nanoseconds => "at_ns".as_bytes(),
    }
}

/// The word of what happens.
pub fn word_of(what: What) -> &'static [u8]
    ensures { result.now ≡ word_of what }
{
    match what {
        What::Start(_) => "start".as_bytes(),
        What::Wake(_) => "wake".as_bytes(),
        What::Block(_) => "block".as_bytes(),
        What::Run(_) => "run".as_bytes(),
        What::Stop => "stop".as_bytes(),
        What::End => "end".as_bytes(),
    }
}

fn core_name(sys: &System, core: u32) -> &[u8]
    ensures value { result.now ≡ (core_at sys.now core).name }
    ensures name { core < length sys.now.cores → is_empty result.now ≡ false }
{
    let cores = sys.cores();
    if core as usize >= cores.len() {
        return "".as_bytes();
    }
    cores[core as usize].name.as_str().as_bytes()
}

/// The field of an event's core.
pub fn core_field(sys: &System, core: u32, what: What) -> &[u8]
    ensures value { result.now ≡ core_field sys.now core what }
    ensures name { core < length sys.now.cores → is_end what ≡ false → is_empty result.now ≡ false }
{
    match what {
        What::End => "".as_bytes(),
        What::Start(_) | What::Wake(_) | What::Block(_) | What::Run(_) | What::Stop => {
            core_name(sys, core)
        }
    }
}

fn part_name(sys: &System, part: u32) -> &[u8]
    ensures value { result.now ≡ (part_at sys.now part).name }
    ensures name { part < length sys.now.parts → is_empty result.now ≡ false }
{
    let parts = sys.parts();
    if part as usize >= parts.len() {
        return "".as_bytes();
    }
    parts[part as usize].name().as_str().as_bytes()
}

/// The field of the VCPU that is named, if one is.
pub fn vcpu_field(sys: &System, vcpu: Option<u32>) -> &[u8]
    ensures value { result.now ≡ vcpu_field sys.now vcpu }
    ensures name { (v : ℕ) → vcpu ≡ Some v → v < length sys.now.parts
        → is_empty result.now ≡ false }
{
    match vcpu {
        None => "".as_bytes(),
        Some(v) => part_name(sys, v),
    }
}
