ghost use Rattle.std.specs.Prelude.{◌≡◌, ◌≢◌, length, MatchOption};
ghost use Rattle.csv_rows.specs.Row.{fields_of};
ghost use Rattle.script_file.specs.Script.{is_script_header};
ghost use Rattle.script_file.specs.inner.Fields.{row_fields};

use csv_rows::{Row, field, is_word};

/// The seven fields of a row of a script.
#[derive(Clone, Copy)]
pub struct RowFields<'r> {
    pub op: &'r [u8],
    pub part: &'r [u8],
    pub parent: &'r [u8],
    pub sched: &'r [u8],
    pub period: &'r [u8],
    pub budget: &'r [u8],
    pub tasks: &'r [u8],
}

/// The fields of a record of seven fields.
pub fn seven_fields<'r>(row: &Row<'r>) -> Option<RowFields<'r>>
    ensures { MatchOption result
        (length (fields_of row.now) ≢ 7)
        (λ f. fields_of row.now ≡ row_fields f) }
{
    if row.len() != 7 {
        return None;
    }
    let op = field(row, 0);
    let part = field(row, 1);
    let parent = field(row, 2);
    let sched = field(row, 3);
    let period = field(row, 4);
    let budget = field(row, 5);
    let tasks = field(row, 6);
    Some(RowFields {
        op,
        part,
        parent,
        sched,
        period,
        budget,
        tasks,
    })
}

fn are_names(f: &RowFields) -> bool
    ensures { result ≡ is_script_header (row_fields f.now) }
{
    is_word(f.op, "op")
        && is_word(f.part, "part")
        && is_word(f.parent, "parent")
        && is_word(f.sched, "sched")
        && is_word(f.period, "period")
        && is_word(f.budget, "budget")
        && is_word(f.tasks, "tasks")
}

/// Whether a record is the header of a script.
pub fn is_script_header(row: &Row) -> bool
    ensures { result ≡ is_script_header (fields_of row.now) }
{
    match seven_fields(row) {
        None => false,
        Some(f) => are_names(&f),
    }
}
