ghost use Rattle.std.specs.Prelude.{◌≡◌, ◌≢◌, true, false, length, MatchOption};
ghost use Rattle.csv_rows.specs.Row.{fields_of};
ghost use Rattle.tree_model.specs.System.{IsSystem, part_names};
ghost use Rattle.release_file.specs.WorkloadFile.{kind_named, is_wake_header};
ghost use Rattle.trace_file.specs.File.{part_place};
ghost use Rattle.trace_file.specs.Rules.{is_vcpu};
ghost use Rattle.release_file.specs.inner.WakeSpelt.{IsSpeltWake, wake_fields};

use crate::{Wake, WakeKind};
use csv_rows::{Plain, Row, field, is_word, plain_number};
use slot_model::LIMIT;
use trace_file::{Places, is_vcpu};
use tree_model::System;

/// The three fields of a row of a workload.
#[derive(Clone, Copy)]
struct WakeRow<'r> {
    at: &'r [u8],
    vcpu: &'r [u8],
    what: &'r [u8],
}

/// What is made of a record: it is no row, its slot is past the last one, it names no VCPU at a
/// slot, or what the row of a VCPU spells.
#[derive(Clone, Copy)]
pub enum SpeltWake {
    Bad,
    TooLate,
    Unknown(u64),
    Spelled(Wake),
}

/// The fields of a record of three fields.
fn three_fields<'r>(fields: &Row<'r>) -> Option<WakeRow<'r>>
    ensures { let row = fields_of fields.now in
        MatchOption result (length row ≢ 3) (λ w. row ≡ wake_fields w) }
{
    if fields.len() != 3 {
        return None;
    }
    let at = field(fields, 0);
    let vcpu = field(fields, 1);
    let what = field(fields, 2);
    Some(WakeRow { at, vcpu, what })
}

/// What a word does to a VCPU.
fn kind_named(word: &[u8]) -> Option<WakeKind>
    ensures { result ≡ kind_named word.now }
{
    if is_word(word, "start") {
        return Some(WakeKind::Start);
    }
    if is_word(word, "wake") {
        return Some(WakeKind::Wake);
    }
    if is_word(word, "block") {
        return Some(WakeKind::Block);
    }
    None
}

/// The VCPU of a name.
fn vcpu_named(sys: &System, parts: &Places, name: &[u8]) -> Option<u32>
    requires system { IsSystem sys.now }
    requires parts { parts.now ≡ part_names sys.now.parts }
    ensures { MatchOption result
        (is_vcpu sys.now (part_place sys.now name.now) ≡ false)
        (λ v. (v ≡ part_place sys.now name.now) × (is_vcpu sys.now v ≡ true)) }
{
    let place = parts.find(name)?;
    let vcpu = place as u32;
    if !is_vcpu(sys, vcpu) {
        return None;
    }
    Some(vcpu)
}

/// What is made of three fields.
fn spell_row(sys: &System, parts: &Places, row: &WakeRow) -> SpeltWake
    requires system { IsSystem sys.now }
    requires parts { parts.now ≡ part_names sys.now.parts }
    ensures { IsSpeltWake sys.now (wake_fields row.now) result }
{
    let Some(what) = kind_named(row.what) else {
        return SpeltWake::Bad;
    };
    match plain_number(row.at, LIMIT) {
        Plain::No => SpeltWake::Bad,
        Plain::Past => SpeltWake::TooLate,
        Plain::Is(at) => match vcpu_named(sys, parts, row.vcpu) {
            None => SpeltWake::Unknown(at),
            Some(vcpu) => SpeltWake::Spelled(Wake { at, vcpu, what }),
        },
    }
}

/// What is made of a record.
pub fn spell_wake(sys: &System, parts: &Places, fields: &Row) -> SpeltWake
    requires system { IsSystem sys.now }
    requires parts { parts.now ≡ part_names sys.now.parts }
    ensures { IsSpeltWake sys.now (fields_of fields.now) result }
{
    match three_fields(fields) {
        None => SpeltWake::Bad,
        Some(row) => spell_row(sys, parts, &row),
    }
}

fn is_header_row(row: &WakeRow) -> bool
    ensures { result ≡ is_wake_header (wake_fields row.now) }
{
    is_word(row.at, "at") && is_word(row.vcpu, "vcpu") && is_word(row.what, "what")
}

/// Whether a record is the header of a workload.
pub fn is_wake_header(fields: &Row) -> bool
    ensures { result ≡ is_wake_header (fields_of fields.now) }
{
    match three_fields(fields) {
        None => false,
        Some(row) => is_header_row(&row),
    }
}
