//! The numbers of a line.
ghost use Rattle.std.specs.Prelude.{◌≡◌, ℕ, ◌+◌, ◌^◌, ◌<◌, ◌≤◌, List, [], ◌∷◌, ◌++◌, map, length, Option};
ghost use Rattle.text.specs.Fields.{number as number_of, trimmed, fields as fields_of};
ghost use Rattle.text.specs.Cursor.{pieces_left};
ghost use Rattle.entries.specs.Form.{numerals as numerals_of, first_numeral};
ghost use Rattle.entries.specs.Noted.{Noted};

use text::fields::{number, trim};
use text::kind::Kind;
use text::pieces::Pieces;

// How many numbers a line has at most: a journey's index, cap and six events.
const NUMBERS_MOST: usize = 8;

// What a line's fields write, the letter left out: how many they are, which is the first that is no number, and the
// first eight numbers, 0 where there is none. The count goes on past the eight, and nothing is on the heap.
#[derive(Clone, Copy)]
pub struct Numerals {
    pub count: usize,
    pub bad: Option<usize>,
    pub values: [u32; 8],
}

impl Numerals {
    // One field more, number `field` of its line.
    fn note(&mut self, field: usize, value: Option<u32>)
        requires { self.old.count + 1 < 2 ^ 64 }
        ensures { (i : ℕ) (vs : List (Option ℕ)) → Noted i vs self.old → field ≡ i + length vs → Noted i (vs ++ value ∷ []) self.new }
    {
        match value {
            Some(value) if self.count < NUMBERS_MOST => self.values[self.count] = value,
            Some(_) => {}
            None => self.bad = self.bad.or(Some(field)),
        }
        self.count += 1;
    }
}

// The numbers of the pieces, of which the first is field `first` of its line.
fn numerals_of(pieces: Pieces, first: usize) -> Numerals
    requires { (first ≤ 2) × (length (pieces_left pieces) ≤ 2 ^ 63) }
    ensures { Noted first (map number_of (map trimmed (pieces_left pieces.entry))) result }
{
    let mut numerals = Numerals {
        count: 0,
        bad: None,
        values: [0; 8],
    };
    for piece in pieces {
        let field = first + numerals.count;
        numerals.note(field, number(trim(piece)));
    }
    numerals
}

impl Numerals {
    // The numbers of a line of the kind.
    pub fn of(kind: Kind, line: &[u8]) -> Numerals
        ensures { Noted (first_numeral kind) (map number_of (numerals_of kind (fields_of line.now))) result }
    {
        let mut pieces = Pieces::new(line, b';');
        match kind {
            Kind::Span => numerals_of(pieces, 1),
            Kind::Heading | Kind::Journey => {
                let _letter = pieces.next();
                numerals_of(pieces, 2)
            }
        }
    }
}
