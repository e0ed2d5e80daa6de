//! How many places the caller's two tables have.
ghost use Rattle.std.specs.Prelude.{◌≡◌, length};

use records::{Journey, Span};

#[derive(Clone, Copy)]
pub struct Places {
    pub spans: usize,
    pub journeys: usize,
}

impl Places {
    pub fn of(spans: &[Span], journeys: &[Journey]) -> Places
        ensures { result ≡ record { spans = length spans.now; journeys = length journeys.now } }
    {
        Places {
            spans: spans.len(),
            journeys: journeys.len(),
        }
    }
}
