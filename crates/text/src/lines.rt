//! The line reader: a text of at most 60,000 bytes, handed out line by line.
ghost use Rattle.std.specs.Prelude.{◌+◌, ◌≤◌};
ghost use Rattle.text.specs.Cursor.{bytes_left};

use crate::pieces::Pieces;

mod reader;

// The longest text that is read, in bytes.
pub const TEXT_MOST: usize = 60_000;

// The lines that are still to come; the next one begins at `offset`.
#[derive(Clone, Copy)]
pub struct Lines<'t> {
    pieces: Pieces<'t>,
    offset: usize,
    // what is left ends at 60,000 at the latest
    ghost inside: { offset + bytes_left pieces ≤ 60001 },
}
