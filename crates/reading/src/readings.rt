//! The two states of a reading.
use crate::tally::Tally;

mod calls;
mod whole;

// A reading that is under way. It has to be closed: one that is let go of does not compile.
pub struct OpenReading {
    tally: Tally,
}

// A reading that has ended: period, events, and how many records are in the tables.
#[derive(Clone, Copy)]
pub struct ClosedReading {
    tally: Tally,
}
