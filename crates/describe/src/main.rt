//! Reads an instance from standard input and tells what it says, what breaks at all zeros, and which minutes are left; or why
//! it is refused.
#![tactic(auto)]

use instance::{Instance, part_of};
use reading::readings::ClosedReading;
use records::{Journey, Span};
use report::{JourneyWords, MinuteWords, Refused, SpanWords, Summary};
use std::io;
use std::io::{Read, Write};

// One byte more than a text may have, so that a longer one is seen to be too long.
const READ_MOST: u64 = 60_001;

// An instance that was read, and its text.
#[derive(Clone, Copy)]
struct Entered<'t> {
    text: &'t [u8],
    instance: Instance<'t>,
}

impl Entered<'_> {
    // What was read: the summary, and then each record on a line of its own.
    fn tell_records(&self, rt: &HostRuntime) -> io::Result<()> {
        let Instance {
            reading,
            spans,
            journeys,
        } = self.instance;
        println!(rt; "{}", Summary(reading))?;
        for span in spans.iter().take(reading.spans()) {
            println!(rt; "{}", SpanWords(*span))?;
        }
        for journey in journeys.iter().take(reading.journeys()) {
            println!(rt; "{}", JourneyWords(*journey))?;
        }
        Ok(())
    }

    // The line of relation `k`, as it stands in the text.
    fn tell_line(&self, rt: &HostRuntime, k: usize) -> io::Result<()> {
        let place = self.instance.place_of(k).unwrap_or((0, 0));
        print!(rt; "the timetable of all zeros does not meet relation {k}: ")?;
        rt.stdout().write_all(part_of(self.text, place))?;
        println!(rt; "")
    }

    // What a check of the timetable of all zeros says.
    fn tell_zeros(&self, rt: &HostRuntime) -> io::Result<()> {
        match self.instance.check_timetable(&[0; 256]) {
            Ok(None) => println!(rt; "the timetable of all zeros meets every relation"),
            Ok(Some(k)) => self.tell_line(rt, k),
            Err(refusal) => println!(rt; "{}", Refused::from(refusal)),
        }
    }

    // The minutes that are left of each event, with everything allowed.
    fn tell_left(&self, rt: &HostRuntime) -> io::Result<()> {
        let mut workspace = vec![in rt.alloc(); 0u64; 4096]?;
        for event in 1..=self.instance.reading.events() {
            match self.instance.minutes_left(event, workspace.as_mut_slice()) {
                Ok(set) => println!(rt; "minutes left of event {event}:{}", MinuteWords(set))?,
                Err(refusal) => println!(rt; "{}", Refused::from(refusal))?,
            }
        }
        Ok(())
    }
}

fn main(rt: HostRuntime) -> io::Result<()> {
    // Two programs read so, each for itself: a library for it would allocate, and none does.
    let mut text = Vec::new(rt.alloc());
    rt.stdin().take(READ_MOST).read_to_end(&mut text)?;
    let mut spans = [Span::BLANK; 256];
    let mut journeys = [Journey::BLANK; 64];
    match ClosedReading::read(text.as_slice(), &mut spans, &mut journeys) {
        Ok(reading) => {
            let instance = Instance {
                reading,
                spans: &spans,
                journeys: &journeys,
            };
            let entered = Entered {
                text: text.as_slice(),
                instance,
            };
            entered.tell_records(&rt)?;
            entered.tell_zeros(&rt)?;
            entered.tell_left(&rt)
        }
        Err(fault) => println!(rt; "{}", Refused(fault)),
    }
}
