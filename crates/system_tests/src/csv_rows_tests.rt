ghost use Rattle.std.specs.Prelude.{◌≤◌, length};
ghost use Rattle.csv_rows.specs.Reading.{IsOpen};

use crate::helpers::MEMORY;
use csv_rows::{
    Plain, RecordFeed, RecordTaker, Records, Row, RowWriter, is_plain, number, plain_number,
};
use std::alloc::{AllocError, Global};
use std::process::Abort;

/// The text of two rows.
fn two_rows(alloc: Global) -> Result<Vec<u8>, AllocError> {
    let rows: [[&[u8]; 3]; 2] = [[b"at", b"what", b"vcpu"], [b"7", b"a,b", b""]];
    let mut writer = RowWriter::new(alloc);
    for row in &rows {
        writer.write(row)?;
    }
    writer.finish()
}

/// Whether there is one more record, which is then read.
fn advances(rt: &impl Abort, records: &mut Records) -> bool
    requires { IsOpen records.old }
    ensures { IsOpen records.new }
{
    records.advance().expect(rt, MEMORY)
}

#[test]
fn rows_are_read_as_they_were_written(rt: HostRuntime) {
    let text = two_rows(rt.alloc()).expect(&rt, MEMORY);
    assert!(rt; text.as_slice() == b"at,what,vcpu\n7,\"a,b\",\n".as_slice());
    let mut records = Records::new(rt.alloc(), &text);
    assert!(rt; advances(&rt, &mut records) && records.row().len() == 3);
    assert!(rt; advances(&rt, &mut records) && records.row().get(1) == Some(b"a,b".as_slice()));
    assert!(rt; !advances(&rt, &mut records));
}

/// Whether the record that was read last has these two fields.
fn is_pair(records: &Records, first: &str, second: &str) -> bool {
    let row = records.row();
    row.len() == 2 && row.get(0) == Some(first.as_bytes()) && row.get(1) == Some(second.as_bytes())
}

/// Whether the records of a text are these, of two fields each.
fn are_pairs(rt: &impl Abort, alloc: Global, text: &str, pairs: &[(&str, &str)]) {
    let mut records = Records::new(alloc, text.as_bytes());
    for (first, second) in pairs {
        let found = advances(rt, &mut records) && is_pair(&records, first, second);
        assert!(rt; found);
    }
    // and the end of the text is read twice
    let is_over = !advances(rt, &mut records) && !advances(rt, &mut records);
    assert!(rt; is_over);
}

/// With a mark at the front, an empty line, quotes, and no line end at the end.
const QUOTED: &str = "\u{FEFF}a\"b,c\r\n\n\"x,\"\"y\"\"\r\n\",\"p\"q\n,z";

#[test]
fn fields_may_stand_in_quotes(rt: HostRuntime) {
    let read = &[("a\"b", "c"), ("x,\"y\"\r\n", "pq"), ("", "z")];
    are_pairs(&rt, rt.alloc(), QUOTED, read);
}

/// With empty lines, empty fields, and no line end at the end.
const PLAIN: &str = "\n\nat,what\n\n7,\n,\n8,x";

#[test]
fn a_plain_text_is_split(rt: HostRuntime) {
    let read = &[("at", "what"), ("7", ""), ("", ""), ("8", "x")];
    are_pairs(&rt, rt.alloc(), PLAIN, read);
}

/// Writes what it takes, a bar behind each field and a slash behind each record.
#[derive(Drop)]
struct Written {
    text: Vec<u8>,
}

impl RecordTaker for Written {
    ghost has_taken = { λ start now records. Unit {0} };

    fn take(&mut self, row: &Row) -> Result<(), AllocError> {
        for i in 0..row.len() {
            self.text.extend_from_slice(row.get(i).unwrap_or(&[]))?;
            self.text.push(b'|')?;
        }
        self.text.push(b'/')?;
        Ok(())
    }
}

/// What is written of a text that is taken in three pieces.
fn in_three(alloc: Global, text: &[u8], from: usize, to: usize) -> Result<Written, AllocError>
    requires ordered { from ≤ to }
    requires within { to ≤ length text.now }
{
    let written = Written {
        text: Vec::new(alloc),
    };
    let mut feed = RecordFeed::new(alloc, written);
    for piece in [&text[..from], &text[from..to], &text[to..]] {
        feed.take(piece)?;
    }
    feed.finish()
}

/// With a mark that is no front of the text, and a quote in its last record.
const MARKED: &str = "a,b\n\u{FEFF}c,d\r\ne,\"f\n\"";

/// Whether this is written of a text, wherever it is cut.
fn is_written(rt: &impl Abort, alloc: Global, text: &[u8], wanted: &str) {
    for to in 0..text.len() {
        for from in 0..to {
            let written = in_three(alloc, text, from, to).expect(rt, MEMORY);
            assert!(rt; written.text.as_slice() == wanted.as_bytes());
        }
    }
}

#[test]
fn a_text_is_taken_in_any_pieces(rt: HostRuntime) {
    for (text, wanted) in [
        (PLAIN, "at|what|/7||/||/8|x|/"),
        (QUOTED, "a\"b|c|/x,\"y\"\r\n|pq|/|z|/"),
        (MARKED, "a|b|/\u{FEFF}c|d|/e|f\n|/"),
    ] {
        is_written(&rt, rt.alloc(), text.as_bytes(), wanted);
    }
}

#[test]
fn a_comma_at_the_end_leaves_an_empty_field(rt: HostRuntime) {
    for text in &["a,", "a,\n", "a,\"\"", "\r\n\"a\","] {
        are_pairs(&rt, rt.alloc(), text, &[("a", "")]);
    }
}

const FIELDS: [(&str, bool); 8] = [
    ("0", true),
    ("10", true),
    ("99999999999999999999999", true),
    ("", false),
    ("01", false),
    ("+1", false),
    ("1.0", false),
    (" 1", false),
];

#[test]
fn plain_numbers_have_no_sign_and_no_leading_zero(rt: HostRuntime) {
    for (field, plain) in &FIELDS {
        assert!(rt; is_plain(field.as_bytes()) == *plain);
    }
}

const NUMBERS: [(&str, Plain); 8] = [
    ("0", Plain::Is(0)),
    ("1000", Plain::Is(1000)),
    ("1001", Plain::Past),
    ("99999999999999999999999", Plain::Past),
    ("", Plain::No),
    ("01", Plain::No),
    ("1.0", Plain::No),
    ("9999999999999999999999x", Plain::No),
];

#[test]
fn plain_numbers_have_a_limit(rt: HostRuntime) {
    for (field, plain) in &NUMBERS {
        assert!(rt; plain_number(field.as_bytes(), 1000) == *plain);
    }
}

const LIMITED: [(&str, Option<u64>); 3] = [
    ("1000", Some(1000)),
    ("1001", None),
    ("99999999999999999999999", None),
];

#[test]
fn numbers_have_a_limit(rt: HostRuntime) {
    for (field, found) in &LIMITED {
        assert!(rt; number(field.as_bytes(), 1000) == *found);
    }
}
