//! What a line enters in a table.
use records::{Journey, Span};

// A record for one of the two tables.
#[derive(Clone, Copy)]
pub enum Entry {
    Span(Span),
    Journey(Journey),
}
