//! What a record line says, as it is entered in a caller's table.
#![tactic(auto)]

// A span: event `to` follows event `from` by `lower` to `upper` minutes, round the period.
#[derive(Clone, Copy, PartialEq, Eq, Debug)]
pub struct Span {
    pub index: u16,
    pub from: u16,
    pub to: u16,
    pub lower: u8,
    pub upper: u8,
    pub weight: u16,
    // where its line stands in the text: offset and length in bytes
    pub place: (usize, usize),
}

// A journey: the legs between the first `count` events of `chain` take at most `cap` minutes together. The caller's table
// holds it, so the chain is an array with a count, and nothing is on the heap.
#[derive(Clone, Copy, PartialEq, Eq, Debug)]
pub struct Journey {
    pub index: u16,
    pub cap: u16,
    pub count: u8,
    pub chain: [u16; 6],
    // where its line stands in the text: offset and length in bytes
    pub place: (usize, usize),
}

impl Span {
    // What a table holds at a place where no record is entered.
    pub const BLANK: Span = Span {
        index: 0,
        from: 0,
        to: 0,
        lower: 0,
        upper: 0,
        weight: 0,
        place: (0, 0),
    };
}

impl Journey {
    // What a table holds at a place where no record is entered.
    pub const BLANK: Journey = Journey {
        index: 0,
        cap: 0,
        count: 0,
        chain: [0; 6],
        place: (0, 0),
    };
}
