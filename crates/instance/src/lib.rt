//! An instance that was read: its spans and journeys as one bank, and the lines behind its relations.
#![tactic(auto)]

ghost use Rattle.std.specs.Prelude.{◌≡◌};
ghost use Rattle.reading.specs.Views.{closed};
ghost use Rattle.instance.specs.Joined.{Banked, timetable_checked, MinutesLeft};
ghost use Rattle.instance.specs.Lines.{LinePlace, part_at};

use bank::Bank;
use checks::check;
use left::left;
use pair::Pair;
use plan::Plan;
use reading::readings::ClosedReading;
use records::{Journey, Span};
use refusals::Refusal;
use table_banks::{JourneyBank, SpanBank};

// What was read, and the tables that it was entered in.
#[derive(Clone, Copy)]
pub struct Instance<'t> {
    pub reading: ClosedReading,
    pub spans: &'t [Span],
    pub journeys: &'t [Journey],
}

// Spans, and behind them journeys.
pub type InstanceBank<'t> = Pair<SpanBank<'t>, JourneyBank<'t>>;

impl<'t> Instance<'t> {
    // Its relations as one bank, the spans first. The tables are tested again, that of the spans first.
    pub fn bank(&self) -> Result<InstanceBank<'t>, Refusal>
        ensures { Banked ⟦<InstanceBank<'t> as Bank>⟧.meaning (closed self.now.reading) self.now.spans.now self.now.journeys.now result }
    {
        let mut first = SpanBank::blank();
        first.fill(&self.reading, self.spans)?;
        let mut second = JourneyBank::blank();
        second.fill(&self.reading, self.journeys)?;
        Ok(Pair { first, second })
    }

    // The lowest of its relations that the minutes do not meet; none where they meet each.
    pub fn check_timetable(&self, minutes: &[u8]) -> Result<Option<usize>, Refusal>
        ensures { result ≡ timetable_checked (closed self.now.reading) self.now.spans.now self.now.journeys.now minutes.now }
    {
        check(&self.bank()?, minutes)
    }

    // The minutes that are left of an event under its relations, with everything allowed: its set in the rest, or 0 where
    // some set of the rest is empty.
    pub fn minutes_left(&self, event: u16, workspace: &mut [u64]) -> Result<u64, Refusal>
        ensures { MinutesLeft (closed self.now.reading) self.now.spans.now self.now.journeys.now event workspace.old workspace.new result }
    {
        let bank = self.bank()?;
        let mut plan = Plan::blank();
        plan.make(self.reading.period(), self.reading.events())?;
        left(&plan, &bank, event, workspace)
    }

    // Where the line of relation `k` stands: that of a span, or behind the spans of a journey; None past the last relation,
    // and where a table has no such record.
    pub fn place_of(&self, k: usize) -> Option<(usize, usize)>
        ensures { LinePlace (closed self.now.reading) self.now.spans.now self.now.journeys.now k result }
    {
        match k.checked_sub(self.reading.spans()) {
            None => self.spans.get(k).map(|span| span.place),
            Some(j) if j < self.reading.journeys() => self
                .journeys
                .get(j)
                .map(|journey| journey.place),
            Some(_) => None,
        }
    }
}

// The part of the text at a place; nothing where the place is not within the text.
pub fn part_of<'t>(text: &'t [u8], place: (usize, usize)) -> &'t [u8]
    ensures { result.now ≡ part_at text.now place }
{
    let (offset, length) = place;
    text.get(offset..)
        .and_then(|behind| behind.get(..length))
        .unwrap_or(&[])
}
