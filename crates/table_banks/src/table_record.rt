//! What a table holds: records that are tested, and that each stand for a relation.
ghost use Rattle.std.specs.Prelude.{◌≡◌, ℕ, ◌<◌, ◌≤◌, Bool, true, false, not, ◌&&◌, List, length, ◌≢◌};
ghost use Rattle.minutes.specs.Minutes.{at};
ghost use Rattle.relations.specs.ExactNarrowing.{of, exactly, named};
ghost use Rattle.relations.specs.Tables.{is_event, good_events, top, Chain};
ghost use Rattle.relations.specs.Conditions.{span_met, journey_met};
ghost use Rattle.reading.specs.Readings.{Reading};
ghost use Rattle.reading.specs.Views.{closed};
ghost use Rattle.spans.specs.Spans.{span_in_range, span_events};
ghost use Rattle.journeys.specs.Journeys.{journey_in_range, journey_events};
ghost use Rattle.table_banks.specs.Verdicts.{record_verdict};
ghost use Rattle.spans.proofs.Lawful.{two_events};
ghost use Rattle.journeys.proofs.Lawful.{some_event};

use journeys::{journey_holds, journey_narrow};
use minutes::Period;
use reading::readings::ClosedReading;
use records::{Journey, Span};
use refusals::Refusal;
use spans::{span_holds, span_narrow};

// A record of a table: a relation on the minutes of the events that it names, narrowed exactly.
pub(crate) trait TableRecord: Copy {
    // whether its numbers are in their ranges, at a period
    ghost ranged: { ℕ → Self → Bool };

    // the events that it names
    ghost events: { Self → List ℕ };

    // whether minutes of these events meet it, at a period
    ghost met: { ℕ → Self → List ℕ → Bool };

    // how many such records a reading has entered
    ghost entered: { Reading → ℕ };

    // How many the reading has entered in the table for such records.
    fn entered(reading: &ClosedReading) -> usize
        ensures { result ≡ entered (closed reading.now) };

    // Refuses Range, then Event, at a period and a number of events.
    fn test(&self, period: u8, most: u16) -> Result<(), Refusal>
        ensures { result ≡ record_verdict (ranged period self.now) (good_events most (events self.now)) };

    // The highest event that the record names.
    fn top(&self) -> u16
        ensures { result ≡ top (events self.now) };

    // Whether the minutes meet it (of its caller, the bank, it asks what that has tested).
    fn holds(&self, period: Period, minutes: &[u8]) -> bool
        requires ranged { ranged period.minutes self.now ≡ true }
        requires placed { Chain (length minutes.now) (events self.now) }
        requires below { (i : ℕ) → i < length (events self.now) → of minutes.now (at (events self.now) i) < period.minutes }
        ensures { result ≡ (exactly period.minutes (events self.now) (met period.minutes self.now)).condition minutes.now };

    // Narrows the sets of its events, and says whether one changed (it asks the like).
    fn narrow(&self, period: Period, family: &mut [u64]) -> bool
        requires ranged { ranged period.minutes self.now ≡ true }
        requires placed { Chain (length family.old) (events self.now) }
        ensures after { family.new ≡ (exactly period.minutes (events self.now) (met period.minutes self.now)).narrowing family.old }
        ensures other { result ≡ true → family.new ≢ family.old }
        ensures same { result ≡ false → family.new ≡ family.old };

    // one in its ranges names an event
    ghost names: { (T : ℕ) (r : Self) → ranged T r ≡ true → 0 < length (events r) };
}

// Whether it is an event from 1 to `most`, and none of those behind it.
fn is_good(event: u16, behind: &[u16], most: u16) -> bool
    ensures { result ≡ (is_event most event && not (named event behind.now)) }
{
    (1..=most).contains(&event) && !behind.contains(&event)
}

// Whether each is an event from 1 to `most`, and none stands twice.
fn are_good(events: &[u16], most: u16) -> bool
    ensures { result ≡ good_events most events.now }
{
    match events.split_first() {
        Some((event, behind)) => is_good(*event, behind, most) && are_good(behind, most),
        None => true,
    }
}

// The highest of the events, or 0.
fn top_of(events: &[u16]) -> u16
    ensures { result ≡ top events.now }
{
    events.iter().fold(0, |most, event| most.max(*event))
}

impl TableRecord for Span {
    ghost ranged = { span_in_range };

    ghost events = { span_events };

    ghost met = { λ T s. span_met T s.lower s.upper };

    ghost entered = { λ r. r.spans };

    fn entered(reading: &ClosedReading) -> usize {
        reading.spans()
    }

    fn test(&self, period: u8, most: u16) -> Result<(), Refusal> {
        let width = self.lower as u16 + period as u16;
        if self.index == 0
            || self.lower >= period
            || self.upper < self.lower
            || self.upper as u16 >= width
        {
            return Err(Refusal::Range);
        }
        // not by `are_good`, which stays a call: a fill tests up to 256 spans
        if !is_good(self.from, &[self.to], most) || !is_good(self.to, &[], most) {
            return Err(Refusal::Event);
        }
        Ok(())
    }

    fn top(&self) -> u16 {
        self.from.max(self.to)
    }

    fn holds(&self, period: Period, minutes: &[u8]) -> bool {
        span_holds(*self, period, minutes)
    }

    fn narrow(&self, period: Period, family: &mut [u64]) -> bool {
        span_narrow(*self, period, family)
    }

    ghost names = { two_events };
}

impl TableRecord for Journey {
    ghost ranged = { λ _. journey_in_range };

    ghost events = { journey_events };

    ghost met = { λ T j. journey_met T j.cap };

    ghost entered = { λ r. r.journeys };

    fn entered(reading: &ClosedReading) -> usize {
        reading.journeys()
    }

    fn test(&self, _period: u8, most: u16) -> Result<(), Refusal> {
        if self.index == 0 || self.cap > 315 || self.count > 6 || self.count < 2 {
            return Err(Refusal::Range);
        }
        if !are_good(&self.chain[0..self.count as usize], most) {
            return Err(Refusal::Event);
        }
        Ok(())
    }

    fn top(&self) -> u16 {
        let n = (self.count as usize).min(6);
        top_of(&self.chain[0..n])
    }

    fn holds(&self, period: Period, minutes: &[u8]) -> bool {
        journey_holds(*self, period, minutes)
    }

    fn narrow(&self, period: Period, family: &mut [u64]) -> bool {
        journey_narrow(*self, period, family)
    }

    ghost names = { λ _. some_event };
}
