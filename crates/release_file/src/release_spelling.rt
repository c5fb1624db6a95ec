ghost use Rattle.std.specs.Prelude.{◌≡◌, ◌≢◌, ◌-◌, ◌^◌, min, true, false, length, if◌then◌else◌, Some, None, MatchOption};
ghost use Rattle.csv_rows.specs.Decimal.{is_plain, number};
ghost use Rattle.csv_rows.specs.Row.{fields_of};
ghost use Rattle.release_file.specs.ReleaseFile.{all_fields, is_release_row, are_names, header_version};
ghost use Rattle.release_file.specs.inner.ReleasesTaken.{AreNumbers, fields_in};

use csv_rows::{Plain, Row, field, is_word, plain_number};

/// The version of a release file, which its header tells.
#[derive(Clone, Copy, Debug, PartialEq, Eq)]
pub enum Version {
    /// Without the field `early`.
    First,
    /// With it.
    Second,
}

/// The five fields of a row of a release file.
#[derive(Clone, Copy)]
pub struct ReleaseFields<'r> {
    pub at: &'r [u8],
    pub part: &'r [u8],
    pub task: &'r [u8],
    pub work: &'r [u8],
    pub early: &'r [u8],
}

/// The fields of a record of as many as its version has. In version 1 the job is not early.
pub fn release_fields<'r>(version: Version, row: &Row<'r>) -> Option<ReleaseFields<'r>>
    ensures { let fields = all_fields version (fields_of row.now) in
        MatchOption result (length fields ≢ 5) (λ f. fields ≡ fields_in f) }
{
    match version {
        Version::First => four_fields(row),
        Version::Second => five_fields(row),
    }
}

fn four_fields<'r>(row: &Row<'r>) -> Option<ReleaseFields<'r>>
    ensures { let fields = all_fields Version.First (fields_of row.now) in
        MatchOption result (length fields ≢ 5) (λ f. fields ≡ fields_in f) }
{
    if row.len() != 4 {
        return None;
    }
    Some(ReleaseFields {
        at: field(row, 0),
        part: field(row, 1),
        task: field(row, 2),
        work: field(row, 3),
        early: b"0",
    })
}

fn five_fields<'r>(row: &Row<'r>) -> Option<ReleaseFields<'r>>
    ensures { let fields = all_fields Version.Second (fields_of row.now) in
        MatchOption result (length fields ≢ 5) (λ f. fields ≡ fields_in f) }
{
    if row.len() != 5 {
        return None;
    }
    Some(ReleaseFields {
        at: field(row, 0),
        part: field(row, 1),
        task: field(row, 2),
        work: field(row, 3),
        early: field(row, 4),
    })
}

/// The numbers of a row. In place of one past 64 bits stands the greatest of these.
#[derive(Clone, Copy)]
pub struct ReleaseNumbers {
    pub at: u64,
    pub work: u64,
    pub early: u64,
}

/// The number of a field that is a plain one, up to the greatest of 64 bits.
fn capped_number(field: &[u8]) -> Option<u64>
    ensures { MatchOption result
        (is_plain field.now ≡ false)
        (λ n. (is_plain field.now ≡ true) × (n ≡ min (number field.now) (2 ^ 64 - 1))) }
{
    match plain_number(field, u64::MAX) {
        Plain::No => None,
        Plain::Past => Some(u64::MAX),
        Plain::Is(n) => Some(n),
    }
}

/// The numbers of a row, where all of them are plain.
pub fn release_numbers(fields: &ReleaseFields) -> Option<ReleaseNumbers>
    ensures { let row = fields_in fields.now in MatchOption result
        (is_release_row row ≡ false)
        (λ numbers. (is_release_row row ≡ true) × AreNumbers fields.now numbers) }
{
    let at = capped_number(fields.at)?;
    let work = capped_number(fields.work)?;
    let early = capped_number(fields.early)?;
    Some(ReleaseNumbers { at, work, early })
}

fn are_names(fields: &ReleaseFields) -> bool
    ensures { let f = fields.now in
        result ≡ are_names f.at.now f.part.now f.task.now f.work.now }
{
    is_word(fields.at, "at")
        && is_word(fields.part, "part")
        && is_word(fields.task, "task")
        && is_word(fields.work, "work")
}

/// The version that a header tells, where the record is one.
pub fn header_version(row: &Row) -> Option<Version>
    ensures { result ≡ header_version (fields_of row.now) }
{
    if let Some(fields) = four_fields(row) {
        return version_if(are_names(&fields), Version::First);
    }
    if let Some(fields) = five_fields(row) {
        return version_if(
            are_names(&fields) && is_word(fields.early, "early"),
            Version::Second,
        );
    }
    None
}

fn version_if(told: bool, version: Version) -> Option<Version>
    ensures { result ≡ (if told then Some version else None) }
{
    if told { Some(version) } else { None }
}
