ghost use Rattle.std.specs.Prelude.{◌≡◌, true, Some};
ghost use Rattle.text.specs.Kinds.{row_of};
ghost use Rattle.reading.specs.Readings.{begun, counted};
ghost use Rattle.reading.specs.Views.{tallied, tallied_result};
ghost use Rattle.reading.specs.Room.{room, LineJudged, Tested};

use crate::places::Places;
use crate::tally::Tally;
use entries::entry::Entry;
use entries::heading::Heading;
use refusals::{Fault, Misfit, Refusal};
use text::kind::Line;

// How many records a table holds at most, however long it is.
const SPANS_MOST: usize = 256;

const JOURNEYS_MOST: usize = 64;

impl Tally {
    // Nothing entered yet under the heading that a line is, or the line's fault.
    pub fn begin(line: Line) -> Result<Tally, Fault>
        ensures { tallied_result result ≡ begun (row_of line.entry) }
    {
        let place = line.place();
        let heading = Heading::read(line.bytes()).map_err(|misfit| misfit.at(place))?;
        Ok(Tally {
            heading,
            spans: 0,
            journeys: 0,
        })
    }

    // Whether the table for the entry has a further place.
    fn has_room(&self, entry: Entry, places: Places) -> bool
        ensures { result ≡ room (tallied self.now) places.spans places.journeys entry }
    {
        match entry {
            Entry::Span(_) => self.spans < places.spans.min(SPANS_MOST),
            Entry::Journey(_) => self.journeys < places.journeys.min(JOURNEYS_MOST),
        }
    }

    // One record more.
    pub fn after(mut self, entry: Entry) -> Tally
        requires { room (tallied self) 256 64 entry ≡ true }
        ensures { tallied result ≡ counted (tallied self) (Some entry) }
    {
        match entry {
            Entry::Span(_) => self.spans += 1,
            Entry::Journey(_) => self.journeys += 1,
        }
        self
    }

    // What a line enters, or its fault. That a table is full is not tested here.
    fn judge(&self, line: Line) -> Result<Entry, Fault>
        ensures { LineJudged (tallied self.now) (row_of line.entry) result }
    {
        let place = line.place();
        self.heading
            .judge(line.bytes(), place)
            .map_err(|misfit| misfit.at(place))
    }

    // What a line enters in tables of so many places, or its fault.
    pub fn test(&self, line: Line, places: Places) -> Result<Entry, Fault>
        ensures { Tested (tallied self.now) places.spans places.journeys (row_of line.entry) result }
    {
        let entry = self.judge(line)?;
        if !self.has_room(entry, places) {
            return Err(Misfit::from(Refusal::Full).at(line.place()));
        }
        Ok(entry)
    }
}
