//! The three kinds of line, told apart by the first field.
ghost use Rattle.std.specs.Prelude.{◌≡◌};
ghost use Rattle.text.specs.Fields.{kind_of, letter as letter_of};
ghost use Rattle.text.specs.Kinds.{row_of, case_of};

use crate::fields::trim;
use crate::pieces::Pieces;

// What a line is: the heading, a span or a journey.
#[derive(Clone, Copy, PartialEq, Eq, Debug)]
pub enum Kind {
    Heading,
    Span,
    Journey,
}

// A line by its kind: its own bytes, borrowed from the text, and its place, offset and length in bytes. A kind beside bytes
// and place would say the same; as an enum, it is taken apart by a match on what the line is.
#[derive(Clone, Copy)]
pub enum Line<'t> {
    Heading(&'t [u8], (usize, usize)),
    Span(&'t [u8], (usize, usize)),
    Journey(&'t [u8], (usize, usize)),
}

// The kind that a first field decides: T alone, J alone, or else the index of a span.
fn letter(field: &[u8]) -> Kind
    ensures { result ≡ letter_of field.now }
{
    match field {
        b"T" => Kind::Heading,
        b"J" => Kind::Journey,
        _ => Kind::Span,
    }
}

impl Kind {
    // The kind of the line that has these bytes.
    pub fn of(line: &[u8]) -> Kind
        ensures { result ≡ kind_of line.now }
    {
        Pieces::new(line, b';')
            .next()
            .map_or(Kind::Span, |first| letter(trim(first)))
    }
}

impl<'t> Line<'t> {
    // The line of these bytes, by its kind.
    pub fn new(bytes: &'t [u8], place: (usize, usize)) -> Line<'t>
        ensures row { row_of result ≡ record { bytes = bytes.entry.now; place = place } }
        ensures kind { case_of result ≡ kind_of bytes.now }
    {
        match Kind::of(bytes) {
            Kind::Heading => Line::Heading(bytes, place),
            Kind::Span => Line::Span(bytes, place),
            Kind::Journey => Line::Journey(bytes, place),
        }
    }

    pub fn bytes(self) -> &'t [u8]
        ensures { result.now ≡ (row_of self.entry).bytes }
    {
        match self {
            Line::Heading(bytes, _) | Line::Span(bytes, _) | Line::Journey(bytes, _) => bytes,
        }
    }

    pub fn place(self) -> (usize, usize)
        ensures { result ≡ (row_of self.entry).place }
    {
        match self {
            Line::Heading(_, place) | Line::Span(_, place) | Line::Journey(_, place) => place,
        }
    }
}
