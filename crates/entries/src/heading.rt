//! The heading of an instance: its period and how many events it has.
ghost use Rattle.std.specs.Prelude.{◌≤◌};

mod judge;
mod read;

// A period from 2 to 64, and 1 to 256 events.
#[derive(Clone, Copy)]
pub struct Heading {
    period: u8,
    events: u16,
    ghost period_low: { 2 ≤ period },
    ghost period_high: { period ≤ 64 },
    ghost events_low: { 1 ≤ events },
    ghost events_high: { events ≤ 256 },
}
