ghost use Rattle.std.specs.Prelude.{◌≡◌, ◌≤◌, ◌+◌, ◌++◌, length, take, OnOk};

use itoa::write_digits;
use std::alloc::{AllocError, Global};
use std::marker::Model;

/// The room for the digits of a moment.
const ROOM: usize = 20;

/// As many bytes are added to a text by a few moves, and more of them by a call.
const PIECE: usize = 32;

/// What a row has behind its moment. Before it stands room for a moment, so that a row is added to
/// a text in one piece, and behind it a filler as long as a piece.
#[derive(Drop)]
pub struct RowTail {
    row: Vec<u8>,
    /// Where the filler begins.
    end: usize,
}

impl Model for RowTail {
    ghost use Rattle.std.specs.Prelude.{◌≤◌, ◌+◌, ◌-◌, ℕ, List, length, take, drop};
    ghost use Rattle.trace_printer.specs.declared.row_tail.TheConstants.{ROOM, PIECE};

    ghost Value = { List ℕ };

    ghost view = { λ tail. take (tail.end - ROOM) (drop ROOM tail.row.items) };

    ghost invariant = { λ tail. (ROOM ≤ tail.end) × (tail.end + PIECE ≤ length tail.row.items) };
}

impl RowTail {
    ghost use Rattle.std.specs.Prelude.{◌≡◌, ◌++◌, decimal, IfOk, OnOk};

    /// A row that has this text behind its moment.
    pub fn new(alloc: Global, text: &[u8]) -> Result<RowTail, AllocError>
        ensures { IfOk result (λ tail. tail ≡ text.now) }
    {
        let mut row = vec![in alloc; 0u8; ROOM]?;
        row.extend_from_slice(text)?;
        let end = row.len();
        row.extend_from_slice(&[0u8; PIECE])?;
        Ok(RowTail { row, end })
    }

    /// Adds the row with this moment, in the unit of the trace.
    #[inline(always)]
    pub fn write(&mut self, text: &mut Vec<u8>, at: u64) -> Result<(), AllocError>
        ensures same { self.new ≡ self.old }
        ensures text { OnOk result (text.new.items ≡ text.old.items ++ decimal at ++ self.old) }
    {
        let from = write_digits(at, &mut self.row, ROOM);
        add_front(text, &self.row[from..], self.end - from)
    }
}

/// Adds the first `count` of some bytes, behind which a piece more stands.
#[inline(always)]
fn add_front(text: &mut Vec<u8>, bytes: &[u8], count: usize) -> Result<(), AllocError>
    requires { count + PIECE ≤ length bytes.now }
    ensures { OnOk result (text.new.items ≡ text.old.items ++ take count bytes.now) }
{
    if count > PIECE {
        return text.extend_from_slice(&bytes[..count]);
    }
    let piece = &bytes[..PIECE];
    text.extend_from_slice(piece)?;
    let over = PIECE - count;
    text.truncate(text.len() - over);
    Ok(())
}
