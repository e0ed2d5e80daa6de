ghost use Rattle.std.specs.Prelude.{◌≡◌};
ghost use Rattle.text.specs.Handed.{rows_left};
ghost use Rattle.reading.specs.Readings.{all_taken, answer_if, first_fault};
ghost use Rattle.reading.specs.Calls.{text_read, read_answer, spans_then, journeys_then};
ghost use Rattle.reading.specs.Whole.{WholeIfRead};
ghost use Rattle.reading.specs.Views.{tallied, opened, closed_result};

use crate::places::Places;
use crate::readings::{ClosedReading, OpenReading};
use crate::tally::Tally;
use records::{Journey, Span};
use refusals::{Fault, Refusal};
use text::lines::Lines;

// Tests lines that are taken one after another, into tables of so many places, up to the first fault.
fn test_all(mut tally: Tally, lines: Lines, places: Places) -> Result<(), Fault>
    ensures { result ≡ answer_if (first_fault (tallied tally) places.spans places.journeys (rows_left lines.entry)) }
{
    for line in lines {
        tally = tally.after(tally.test(line, places)?);
    }
    Ok(())
}

// Takes the lines one after another, passing over those that are refused.
fn take_all(
    mut reading: OpenReading,
    lines: Lines,
    spans: &mut [Span],
    journeys: &mut [Journey],
) -> OpenReading
    ensures { record { reading = opened result; spans = spans.new; journeys = journeys.new } ≡ all_taken (record { reading = opened reading; spans = spans.old; journeys = journeys.old }) (rows_left lines.entry) }
{
    for line in lines {
        (reading, _) = reading.take(line, spans, journeys);
    }
    reading
}

// What a text that is read whole leaves, whatever text and tables are.
fn whole(text: &[u8], spans: &[Span], journeys: &[Journey])
    ensures { WholeIfRead text.now spans.now journeys.now (text_read spans.now journeys.now text.now) }
{}

impl ClosedReading {
    // Reads a whole text: all its records are entered in the tables, or the first fault is the answer, and then the
    // tables are as before. Every line is tested before the first is entered.
    pub fn read(
        text: &[u8],
        spans: &mut [Span],
        journeys: &mut [Journey],
    ) -> Result<ClosedReading, Fault>
        ensures answer { closed_result result ≡ read_answer (text_read spans.old journeys.old text.now) }
        ensures spans { spans.new ≡ spans_then spans.old (text_read spans.old journeys.old text.now) }
        ensures journeys { journeys.new ≡ journeys_then journeys.old (text_read spans.old journeys.old text.now) }
        ensures whole { WholeIfRead text.now spans.old journeys.old (text_read spans.old journeys.old text.now) }
    {
        whole(text, spans, journeys);
        let mut lines = Lines::new(text)?;
        let heading = lines.next().ok_or(Refusal::Turn)?;
        let OpenReading { tally } = OpenReading::begin(heading)?;
        test_all(tally, lines, Places::of(spans, journeys))?;
        Ok(take_all(OpenReading { tally }, lines, spans, journeys).close())
    }
}
