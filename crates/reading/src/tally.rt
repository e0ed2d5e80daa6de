//! How far a reading is.
ghost use Rattle.std.specs.Prelude.{◌≤◌};

use entries::heading::Heading;

mod counts;

// The heading, and how many spans and journeys are entered.
#[derive(Clone, Copy)]
pub struct Tally {
    pub heading: Heading,
    pub spans: usize,
    pub journeys: usize,
    ghost few_spans: { spans ≤ 256 },
    ghost few_journeys: { journeys ≤ 64 },
}
