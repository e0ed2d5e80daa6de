//! The bank of a table of journeys.
use crate::table_bank::TableBank;
use records::Journey;

// Relation `k` is journey `k`.
pub type JourneyBank<'t> = TableBank<'t, Journey>;
