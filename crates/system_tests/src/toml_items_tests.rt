use std::alloc::Global;
use std::process::Abort;
use toml::Table;
use toml_items::{
    Body, Document, DocumentFault, Entry, Header, Item, array_at, element, header_again, is_end,
    number_line, read_document, table_entries, text_line, top_pairs,
};

const PLAIN: &str = "# a host
format = 1
[[core]]
name = \"cpu0\"  # pinned
sched = \"edf\"

[[part]]
name = \"a b\"
extra = true
\t[[part.task]]
\tperiod\t=\t20
\t[[part.task]]
\tperiod = -5
[[part]]
name = \"c\"";

fn item_at<'e, 't>(entries: &'e [Entry<'t>], key: &str) -> Option<&'e Item<'t>> {
    for i in 0..entries.len() {
        if entries[i].0 == key {
            return Some(&entries[i].1);
        }
    }
    None
}

fn is_text_at(entries: &[Entry<'_>], key: &str, want: &str) -> bool {
    match item_at(entries, key) {
        Some(Item::Text(text)) => *text == want,
        _ => false,
    }
}

fn number_at(entries: &[Entry<'_>], key: &str) -> Option<i64> {
    match item_at(entries, key) {
        Some(Item::Number(number)) => Some(*number),
        _ => None,
    }
}

fn is_true_at(entries: &[Entry<'_>], key: &str) -> bool {
    matches!(item_at(entries, key), Some(Item::Flag(true)))
}

/// How many tables stand in the array at a key.
fn count_at(entries: &[Entry<'_>], key: &str) -> usize {
    match item_at(entries, key) {
        Some(Item::List(items)) => items.len(),
        _ => 0,
    }
}

/// The table at a place of the array at a key.
fn table_at<'e, 't>(entries: &'e [Entry<'t>], key: &str, place: usize) -> Option<&'e [Entry<'t>]> {
    match item_at(entries, key) {
        Some(Item::List(items)) => match items.get(place) {
            Some(Item::Table(table)) => Some(table.as_slice()),
            _ => None,
        },
        _ => None,
    }
}

/// The entries of a text that is plain.
fn plain_entries(alloc: Global, text: &str) -> Option<Vec<Entry<'_>>> {
    match read_document(alloc, text) {
        Ok(Document::Entries(entries)) => Some(entries),
        _ => None,
    }
}

#[test]
fn a_plain_text_gives_its_items_without_a_table(rt: HostRuntime) {
    let top = plain_entries(rt.alloc(), PLAIN).expect(&rt, "a plain text");
    assert!(rt; top.len() == 3 && number_at(&top, "format") == Some(1));
    assert!(rt; count_at(&top, "core") == 1 && count_at(&top, "part") == 2);
    let core = table_at(&top, "core", 0).expect(&rt, "a core");
    assert!(rt; is_text_at(core, "name", "cpu0") && is_text_at(core, "sched", "edf"));
    let first = table_at(&top, "part", 0).expect(&rt, "a part");
    assert!(rt; is_text_at(first, "name", "a b") && is_true_at(first, "extra"));
    assert!(rt; count_at(first, "task") == 2);
    let task = table_at(first, "task", 1).expect(&rt, "a task");
    assert!(rt; number_at(task, "period") == Some(-5));
    let second = table_at(&top, "part", 1).expect(&rt, "another part");
    assert!(rt; second.len() == 1 && is_text_at(second, "name", "c"));
}

/// The element behind a header of an array of a plain text.
fn element_at<'t>(rt: &impl Abort, alloc: Global, header: Header<'t>, text: &'t str) -> Body<'t> {
    let found = element(alloc, header, text).expect(rt, "out of memory");
    found.expect(rt, "an element")
}

#[test]
fn a_plain_text_is_walked_element_by_element(rt: HostRuntime) {
    let alloc = rt.alloc();
    let top = top_pairs(alloc, PLAIN)
        .expect(&rt, "out of memory")
        .expect(&rt, "pairs");
    assert!(rt; top.entries.len() == 1 && number_at(&top.entries, "format") == Some(1));
    let cores = array_at(top.rest).expect(&rt, "an array");
    let core = element_at(&rt, alloc, cores, cores.rest);
    assert!(rt; cores.key == "core" && is_text_at(&core.entries, "name", "cpu0"));
    assert!(rt; header_again(cores, core.rest).is_none() && !is_end(core.rest));
    let parts = array_at(core.rest).expect(&rt, "another array");
    let first = element_at(&rt, alloc, parts, parts.rest);
    assert!(rt; parts.key == "part" && count_at(&first.entries, "task") == 2);
    let again = header_again(parts, first.rest).expect(&rt, "another part");
    let second = element_at(&rt, alloc, parts, again);
    assert!(rt; is_text_at(&second.entries, "name", "c") && is_end(second.rest));
    assert!(rt; header_again(parts, second.rest).is_none() && array_at(second.rest).is_none());
}

/// Texts that are not walked from their front on, or from a header on.
#[test]
fn a_walk_ends_where_a_text_is_not_plain(rt: HostRuntime) {
    let alloc = rt.alloc();
    for text in &["\u{feff}a = 1", "a = 'b'", "a = 1\na = 2"] {
        let pairs = top_pairs(alloc, text).expect(&rt, "out of memory");
        assert!(rt; pairs.is_none());
    }
    for text in &["[a]", "[[a.b]]", "a = 1", "", "[[a]] b"] {
        assert!(rt; array_at(text).is_none());
    }
    let header = array_at("[[a]]\nb = 'c'").expect(&rt, "an array");
    assert!(rt;
        element(alloc, header, header.rest)
            .expect(&rt, "out of memory")
            .is_none()
    );
}

const PLAIN_TEXTS: [(&str, usize); 7] = [
    ("", 0),
    ("\n# nothing\n", 0),
    ("a=1", 1),
    ("a = 0x1F\r\nb = false\r\n", 2),
    ("b = 1\na = 2\na-b_9 = 1_000\n", 3),
    ("[[a]]\n[[a]]\n[[b]]\n", 2),
    ("[[a]]\n[[a.b]]\n[[a.c]]\nd = 1\n[[a]]\n[[e]]\n", 2),
];

#[test]
fn these_texts_are_plain(rt: HostRuntime) {
    for (text, count) in &PLAIN_TEXTS {
        let entries = plain_entries(rt.alloc(), text).expect(&rt, "a plain text");
        assert!(rt; entries.len() == *count);
    }
}

const OTHER_TEXTS: [&str; 14] = [
    "\u{feff}a = 1",
    "a = 'b'",
    "a = \"\"",
    "a = \"b\\n\"",
    "a = 1.5",
    "a = 2001-01-01",
    "a = [1]",
    "a.b = 1",
    "\"a\" = 1",
    "[a]",
    "[[a]]\n[[b]]\n[[a]]",
    "[[a.b]]",
    "[[a]]\n[[a.b]]\n[[a.b.c]]",
    "= 1",
];

/// They are the kit's to read, or no document at all.
#[test]
fn these_texts_are_not(rt: HostRuntime) {
    for text in &OTHER_TEXTS {
        match read_document(rt.alloc(), text) {
            Ok(Document::Entries(_)) => panic!(rt; "plain"),
            Ok(Document::Table(_)) => (),
            Err(fault) => assert!(rt; fault == DocumentFault::NotToml),
        }
    }
}

/// The kit's table has so many entries, of which `a` is the text `b`.
fn expect_entries(rt: &impl Abort, alloc: Global, table: &Table, count: usize) {
    let entries = table_entries(alloc, table).expect(rt, "out of memory");
    assert!(rt; entries.len() == count && is_text_at(&entries, "a", "b"));
}

#[test]
fn any_other_is_read_by_the_kit(rt: HostRuntime) {
    match read_document(rt.alloc(), "a = 'b'\n[c]\nd = 1.5") {
        Ok(Document::Table(table)) => expect_entries(&rt, rt.alloc(), &table, 2),
        _ => panic!(rt; "no table"),
    }
}

const NESTED: &str = "a = 'b'\nc = [1, 2.5, 2001-01-01, true, {d = 7}]\n[e]\nf = \"\"";

#[test]
fn a_table_gives_its_items(rt: HostRuntime) {
    let read = toml::table_from_str(rt.alloc(), NESTED);
    let table = read.ok().expect(&rt, "a table");
    expect_entries(&rt, rt.alloc(), &table, 3);
    let entries = table_entries(rt.alloc(), &table).expect(&rt, "out of memory");
    let inner = table_at(&entries, "c", 4).expect(&rt, "a table");
    assert!(rt; count_at(&entries, "c") == 5 && number_at(inner, "d") == Some(7));
}

#[test]
fn a_line_of_a_known_key_is_read(rt: HostRuntime) {
    let number = number_line("period = 20\nwork = 3", "period").expect(&rt, "a number");
    assert!(rt; number.number == 20 && number.rest == "\nwork = 3");
    let name = text_line("name = \"t0\"\n", "name").expect(&rt, "a text");
    assert!(rt; name.content == "t0" && name.rest == "\n");
    for text in &[
        "period = 0",
        "period = 2 3",
        "period=2",
        "periods = 2",
        "deadline = 2",
        "period = '2'",
    ] {
        assert!(rt; number_line(text, "period").is_none());
    }
    assert!(rt; text_line("name = \"\\u0061\"", "name").is_none());
}
