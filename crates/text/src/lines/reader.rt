ghost use Rattle.std.specs.Prelude.{◌≡◌, [], length, if◌then◌else◌, Ok, Err, nat_le};
ghost use Rattle.refusals.specs.declared.Refusal.TheVariants.{Short};
ghost use Rattle.text.specs.Rows.{rows, Lined, passed_over as passes, blank as all_blank};
ghost use Rattle.text.specs.Handed.{rows_left, rows_of_result};

use crate::kind::Line;
use crate::lines::{Lines, TEXT_MOST};
use crate::pieces::Pieces;
use refusals::Refusal;

// Whether every byte is a space.
fn blank(bytes: &[u8]) -> bool
    ensures { result ≡ all_blank bytes.now }
{
    bytes.iter().all(|c| *c == b' ')
}

// Whether a line is passed over: a comment, or a line of spaces or of nothing.
fn passed_over(line: &[u8]) -> bool
    ensures { result ≡ passes line.now }
{
    blank(line) || matches!(line, [b'#', ..])
}

// The lines of a text give it back, and each row stands in it, whatever the text is.
fn lined(text: &[u8])
    ensures { Lined text.now }
{}

impl<'t> Lines<'t> {
    // A reader of no text.
    pub fn empty() -> Lines<'t>
        ensures { rows_left result ≡ [] }
    {
        Lines {
            pieces: Pieces::new(&[], b'\n'),
            offset: 0,
        }
    }

    // The lines of a text, or a refusal of one of more than 60,000 bytes.
    pub fn new(text: &'t [u8]) -> Result<Lines<'t>, Refusal>
        ensures answer { rows_of_result result ≡ (if nat_le (length text.now) 60000 then Ok (rows text.now) else Err Short) }
        ensures lined { Lined text.now }
    {
        lined(text);
        if text.len() > TEXT_MOST {
            return Err(Refusal::Short);
        }
        Ok(Lines {
            pieces: Pieces::new(text, b'\n'),
            offset: 0,
        })
    }
}

impl<'t> Iterator for Lines<'t> {
    ghost use Rattle.std.specs.Iterator.{item_count};
    ghost use Rattle.text.specs.Handed.{YieldsLine};

    type Item = Line<'t>;

    ghost next_gives = { YieldsLine };

    ghost remaining = { item_count rows_left };

    // The next line that is not passed over, or None where there is none.
    fn next(&mut self) -> Option<Line<'t>> {
        // No `for` over `self.pieces.by_ref()`: while the pieces are lent, that the offset stays in range is not proved.
        while let Some(line) = self.pieces.next() {
            let place = (self.offset, line.len());
            self.offset += line.len() + 1;
            if !passed_over(line) {
                return Some(Line::new(line, place));
            }
        }
        None
    }
}
