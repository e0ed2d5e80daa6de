ghost use Rattle.std.specs.Prelude.{◌≡◌};
ghost use Rattle.text.specs.Kinds.{row_of};
ghost use Rattle.reading.specs.Readings.{begun, taken, take_answer};
ghost use Rattle.reading.specs.Views.{opened, closed, opened_result};

use crate::places::Places;
use crate::readings::{ClosedReading, OpenReading};
use crate::tally::Tally;
use entries::entry::Entry;
use records::{Journey, Span};
use refusals::Fault;
use text::kind::Line;

impl OpenReading {
    // Begins with the heading, or refuses the line.
    pub fn begin(line: Line) -> Result<OpenReading, Fault>
        ensures { opened_result result ≡ begun (row_of line.entry) }
    {
        let tally = Tally::begin(line)?;
        Ok(OpenReading { tally })
    }

    // Enters the line's record in the table for its kind, or refuses the line, and then reading and tables are as before.
    pub fn take(
        self,
        line: Line,
        spans: &mut [Span],
        journeys: &mut [Journey],
    ) -> (OpenReading, Result<(), Fault>)
        ensures answer { result.1 ≡ take_answer (record { reading = opened self; spans = spans.old; journeys = journeys.old }) (row_of line.entry) }
        ensures after { record { reading = opened result.0; spans = spans.new; journeys = journeys.new } ≡ taken (record { reading = opened self; spans = spans.old; journeys = journeys.old }) (row_of line.entry) }
    {
        let OpenReading { tally } = self;
        match tally.test(line, Places::of(spans, journeys)) {
            Ok(entry) => {
                let after = tally.after(entry);
                match entry {
                    Entry::Span(span) => spans[tally.spans] = span,
                    Entry::Journey(journey) => journeys[tally.journeys] = journey,
                }
                (OpenReading { tally: after }, Ok(()))
            }
            Err(fault) => (OpenReading { tally }, Err(fault)),
        }
    }

    // Ends the reading.
    pub fn close(self) -> ClosedReading
        ensures { closed result ≡ opened self }
    {
        let OpenReading { tally } = self;
        ClosedReading { tally }
    }
}

impl ClosedReading {
    pub fn period(&self) -> u8
        ensures { result ≡ (closed self.now).period }
    {
        self.tally.heading.period()
    }

    pub fn events(&self) -> u16
        ensures { result ≡ (closed self.now).events }
    {
        self.tally.heading.events()
    }

    // How many spans are in the table, at most 256.
    pub fn spans(&self) -> usize
        ensures { result ≡ (closed self.now).spans }
    {
        self.tally.spans
    }

    // How many journeys are in the table, at most 64.
    pub fn journeys(&self) -> usize
        ensures { result ≡ (closed self.now).journeys }
    {
        self.tally.journeys
    }
}
