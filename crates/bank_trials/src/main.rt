//! Tries the banks against plain enumeration, at several periods, and prints how many answers were compared.
#![tactic(auto)]

use crate::dice::Dice;
use crate::trial::Tally;
use bank::Bank;
use reading::readings::ClosedReading;
use records::{Journey, Span};
use refusals::Refusal;
use std::{fmt, io};
use table_banks::{JourneyBank, SpanBank};

mod dice;
mod joined;
mod made;
mod plain;
mod trial;

// How many tables are tried at each period, and how many families and lists of minutes with each.
const TABLES: usize = 10;

const ROUNDS: usize = 10;

// Six events with eight spans and eight journeys, which the trials replace by others; the period's two digits are still 0.
const INSTANCE: &[u8; 183] =
    b"T;00;6\n1;1;2;0;0;0\n1;1;2;0;0;0\n1;1;2;0;0;0\n1;1;2;0;0;0\n1;1;2;0;0;0\n1;1;2;0;0;0\n1;1;2;0;0;0\n1;1;2;0;0;0\nJ;1;0;1;2\nJ;1;0;1;2\nJ;1;0;1;2\nJ;1;0;1;2\nJ;1;0;1;2\nJ;1;0;1;2\nJ;1;0;1;2\nJ;1;0;1;2\n";

// What was compared: answers of spans, of journeys, and of both joined, waived and checked.
#[derive(Clone, Copy, Default)]
struct Tallies {
    spans: Tally,
    journeys: Tally,
    both: Tally,
}

impl fmt::Display for Tallies {
    fn fmt<W: fmt::Write>(&self, f: &mut fmt::Formatter<W>) -> fmt::Result {
        let Tallies {
            spans,
            journeys,
            both,
        } = *self;
        let wrong = [spans, journeys, both]
            .iter()
            .map(|t| t.wrong)
            .fold(0, u32::saturating_add);
        write!(
            f,
            "{} answers of spans, {} of journeys, ",
            spans.compared, journeys.compared
        )?;
        write!(
            f,
            "{} of both joined, waived and checked: {wrong} disagreements",
            both.compared
        )
    }
}

// Rounds with banks that a closed reading makes of the tables; none where it refuses them.
fn trials_with(
    reading: &ClosedReading,
    s: &[Span; 8],
    j: &[Journey; 8],
    dice: &mut Dice,
    tallies: &mut Tallies,
) -> Result<(), Refusal> {
    let mut spans = SpanBank::blank();
    spans.fill(reading, s)?;
    let mut journeys = JourneyBank::blank();
    journeys.fill(reading, j)?;
    // the same for both, so that a bank of another period would be noticed
    let period = spans.period();
    for _ in 0..ROUNDS {
        trial::records_once(&spans, s, period, 2, dice, &mut tallies.spans);
        trial::records_once(&journeys, j, period, 4, dice, &mut tallies.journeys);
        joined::joined_once(spans, journeys, dice, &mut tallies.both);
    }
    Ok(())
}

// The instance at a period. It is no text on the heap, since a trial is not to fail for want of memory.
fn instance_at(period: u8) -> [u8; 183] {
    let mut text = *INSTANCE;
    text[2] = b'0' + period / 10;
    text[3] = b'0' + period % 10;
    text
}

// What was compared at a period.
fn trials_at(period: u8) -> Tallies {
    let mut dice = Dice::new(u64::from(period));
    let mut tallies = Tallies::default();
    let mut s = [Span::BLANK; 8];
    let mut j = [Journey::BLANK; 8];
    let Ok(reading) = ClosedReading::read(&instance_at(period), &mut s, &mut j) else {
        return tallies;
    };
    for _ in 0..TABLES {
        let spans = made::spans(&mut dice, period);
        let journeys = made::journeys(&mut dice);
        let _ = trials_with(&reading, &spans, &journeys, &mut dice, &mut tallies);
    }
    tallies
}

fn main(rt: HostRuntime) -> io::Result<()> {
    for period in [2, 3, 10, 59, 60, 63, 64] {
        println!(rt; "period {period}: {}", trials_at(period))?;
    }
    Ok(())
}
