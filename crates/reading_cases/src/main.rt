//! Reads many small texts and tells what becomes of each: one text to a line of standard input, behind its name and an
//! equals sign, with \n, \r, \t and \h for the bytes 10, 13, 9 and 200.
#![tactic(auto)]

use reading::readings::ClosedReading;
use records::{Journey, Span};
use report::{Refused, Summary};
use std::alloc::{AllocError, Global};
use std::io;

// The byte that a letter behind a backslash stands for.
fn escaped(letter: u8) -> u8 {
    match letter {
        b'n' => 10,
        b'r' => 13,
        b't' => 9,
        b'h' => 200,
        _ => letter,
    }
}

// The text that a line writes. A backslash with no letter behind it writes nothing.
fn text_of(heap: Global, line: &[u8]) -> Result<Vec<u8>, AllocError> {
    let mut text = Vec::new(heap);
    let mut rest = line;
    // No range ends it: an escape takes two bytes.
    loop {
        let (byte, behind) = match rest {
            [] | [b'\\'] => return Ok(text),
            [b'\\', letter, behind @ ..] => (escaped(*letter), behind),
            [byte, behind @ ..] => (*byte, behind),
        };
        text.push(byte)?;
        rest = behind;
    }
}

const HEADING: &[u8] = b"T;10;3\n";

// A heading, and so many bytes of comment behind it that the text has `length` bytes.
fn long_text(heap: Global, length: usize) -> Result<Vec<u8>, AllocError> {
    let mut text = HEADING.to_vec(heap)?;
    text.resize(length, b'#')?;
    Ok(text)
}

// A heading and so many equal spans.
fn many_spans(heap: Global, count: usize) -> Result<Vec<u8>, AllocError> {
    let mut text = HEADING.to_vec(heap)?;
    for _ in 0..count {
        text.extend_from_slice(b"1;1;2;3;5;1\n")?;
    }
    Ok(text)
}

// What becomes of the text, with tables of so many spans and two journeys.
fn tell(rt: &HostRuntime, name: &str, text: &[u8], spans: &mut [Span]) -> io::Result<()> {
    let mut journeys = [Journey::BLANK; 2];
    match ClosedReading::read(text, spans, &mut journeys) {
        Ok(reading) => println!(rt; "{name}: {}", Summary(reading)),
        Err(fault) => println!(rt; "{name}: {}", Refused(fault)),
    }
}

// Tells of the text on a line of the table, with a table of three spans.
fn tell_line(rt: &HostRuntime, line: &str) -> io::Result<()> {
    let Some((name, written)) = line.split_once('=') else {
        return println!(rt; "no text: {line}");
    };
    let text = text_of(rt.alloc(), written.as_bytes())?;
    tell(rt, name, text.as_slice(), &mut [Span::BLANK; 3])
}

fn main(rt: HostRuntime) -> io::Result<()> {
    for line in rt.lines(rt.alloc()) {
        let line = line?;
        tell_line(&rt, line.as_str())?;
    }
    let mut spans = [Span::BLANK; 300];
    // one text at a time, so that each line is written before the next text is made
    for (name, length) in [("60,000 bytes", 60_000), ("60,001 bytes", 60_001)] {
        let text = long_text(rt.alloc(), length)?;
        tell(&rt, name, text.as_slice(), &mut spans)?;
    }
    for (name, count) in [("256 spans", 256), ("257 spans", 257)] {
        let text = many_spans(rt.alloc(), count)?;
        tell(&rt, name, text.as_slice(), &mut spans)?;
    }
    Ok(())
}
