//! What is told of a reading, in words. The types told of are of other crates, so Display stands on newtypes.
#![tactic(auto)]

ghost use Rattle.report.specs.Lines.{refused_line};
ghost use Rattle.std.specs.Prelude.{◌≡◌, Some};

use reading::readings::ClosedReading;
use records::{Journey, Span};
use refusals::{Fault, Refusal};
use std::fmt;

// A fault, as the line that a refusal is told by.
#[derive(Clone, Copy)]
pub struct Refused(pub Fault);

impl fmt::Display for Refused {
    ghost output = { λ r. Some (refused_line r.0) };

    fn fmt<W: fmt::Write>(&self, f: &mut fmt::Formatter<W>) -> fmt::Result {
        let Refused(fault) = *self;
        let number = fault.refusal.number();
        let field = fault.field;
        let (offset, length) = fault.place;
        write!(f, "refused {number} {field} {offset} {length}")
    }
}

// A refusal of a call that reads no line: no field is at fault, and the place is empty.
impl From<Refusal> for Refused {
    ghost from_gives = { λ r told. told.0 ≡ record { refusal = r; field = 0; place = (0, 0) } };

    fn from(refusal: Refusal) -> Refused {
        Refused(refusal.into())
    }
}

// Period, events, and how many records were read.
#[derive(Clone, Copy)]
pub struct Summary(pub ClosedReading);

impl fmt::Display for Summary {
    fn fmt<W: fmt::Write>(&self, f: &mut fmt::Formatter<W>) -> fmt::Result {
        let period = self.0.period();
        let events = self.0.events();
        let spans = self.0.spans();
        let journeys = self.0.journeys();
        write!(
            f,
            "period {period}, events {events}, spans {spans}, journeys {journeys}"
        )
    }
}

// A span: who must follow whom, and by how many minutes.
#[derive(Clone, Copy)]
pub struct SpanWords(pub Span);

impl fmt::Display for SpanWords {
    fn fmt<W: fmt::Write>(&self, f: &mut fmt::Formatter<W>) -> fmt::Result {
        let Span {
            index,
            from,
            to,
            lower,
            upper,
            weight,
            place: _,
        } = self.0;
        write!(
            f,
            "span {index}: event {to} follows event {from} by {lower} to {upper} minutes, weight {weight}"
        )
    }
}

// A journey: which chain has which cap.
#[derive(Clone, Copy)]
pub struct JourneyWords(pub Journey);

impl fmt::Display for JourneyWords {
    fn fmt<W: fmt::Write>(&self, f: &mut fmt::Formatter<W>) -> fmt::Result {
        let JourneyWords(journey) = self;
        write!(f, "journey {}: the legs between events", journey.index)?;
        for event in journey.chain.iter().take(usize::from(journey.count)) {
            write!(f, " {event}")?;
        }
        write!(f, " take at most {} minutes together", journey.cap)
    }
}

// A minute set: its minutes, rising, or the word none.
#[derive(Clone, Copy)]
pub struct MinuteWords(pub u64);

impl fmt::Display for MinuteWords {
    fn fmt<W: fmt::Write>(&self, f: &mut fmt::Formatter<W>) -> fmt::Result {
        let set = self.0;
        if set == 0 {
            return write!(f, " none");
        }
        for minute in (0..64).filter(|minute| (set >> minute) % 2 == 1) {
            write!(f, " {minute}")?;
        }
        Ok(())
    }
}
