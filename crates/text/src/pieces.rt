//! A list of bytes, handed out piece by piece between separators.
ghost use Rattle.std.specs.Prelude.{◌≡◌, ◌+◌, ◌≤◌, length};
ghost use Rattle.std.specs.Iterator.{item_count};
ghost use Rattle.text.specs.Pieces.{pieces, Division};
ghost use Rattle.text.specs.Cursor.{pieces_left, bytes_left, YieldsPiece};

// The pieces that are still to come: those of the rest, while there is one.
#[derive(Clone, Copy)]
pub struct Pieces<'t> {
    separator: u8,
    rest: Option<&'t [u8]>,
}

// The pieces divide the bytes, whatever bytes and separator are, and there is at most one more of them than bytes.
fn division(bytes: &[u8], separator: u8)
    ensures division { Division separator bytes.now }
    ensures few { length (pieces separator bytes.now) ≤ length bytes.now + 1 }
{}

impl<'t> Pieces<'t> {
    // All pieces of the bytes: the one list of pieces without a separator that gives the bytes back.
    pub fn new(bytes: &'t [u8], separator: u8) -> Pieces<'t>
        ensures left { pieces_left result ≡ pieces separator bytes.now }
        ensures bytes { bytes_left result ≡ length bytes.now + 1 }
        ensures few { length (pieces separator bytes.now) ≤ length bytes.now + 1 }
        ensures division { Division separator bytes.now }
    {
        division(bytes, separator);
        Pieces {
            separator,
            rest: Some(bytes),
        }
    }
}

impl<'t> Iterator for Pieces<'t> {
    type Item = &'t [u8];

    ghost next_gives = { YieldsPiece };

    ghost remaining = { item_count pieces_left };

    // The next piece, or None where all are handed out.
    fn next(&mut self) -> Option<&'t [u8]> {
        let separator = self.separator;
        let rest = self.rest?;
        match rest.iter().position(|c| *c == separator) {
            Some(end) => {
                self.rest = Some(&rest[end + 1..]);
                Some(&rest[..end])
            }
            None => {
                self.rest = None;
                Some(rest)
            }
        }
    }
}
