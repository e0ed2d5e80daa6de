//! Finds the earliest timetable of an instance that it reads from standard input.
#![tactic(auto)]

use records::{Journey, Span};
use report::Refused;
use search::Answer;
use solve::{Solution, solve};
use std::io;
use std::io::Read;

// One byte more than a text may have, so that a longer one is seen to be too long.
const READ_MOST: u64 = 60_001;

// The answer and its number, and then the timetable that was found or the floor to go on from: a line for each event.
fn tell(rt: &HostRuntime, solution: Solution, minutes: &[u8]) -> io::Result<()> {
    match solution.answer {
        Answer::Found(number) => println!(rt; "found {number}")?,
        Answer::Nothing(number) => return println!(rt; "none {number}"),
        Answer::Spent(number) => println!(rt; "spent {number}")?,
    }
    for (event, minute) in (1..=solution.events).zip(minutes) {
        println!(rt; "{event} {minute}")?;
    }
    Ok(())
}

fn main(rt: HostRuntime) -> io::Result<()> {
    // Two programs read so, each for itself: a library for it would allocate, and none does.
    let mut text = Vec::new(rt.alloc());
    rt.stdin().take(READ_MOST).read_to_end(&mut text)?;
    let mut spans = [Span::BLANK; 256];
    let mut journeys = [Journey::BLANK; 64];
    let mut minutes = [0u8; 256];
    let mut workspace = vec![in rt.alloc(); 0u64; 4096]?;
    match solve(
        text.as_slice(),
        &mut spans,
        &mut journeys,
        &mut minutes,
        workspace.as_mut_slice(),
    ) {
        Ok(solution) => tell(&rt, solution, &minutes),
        Err(fault) => println!(rt; "{}", Refused(fault)),
    }
}
