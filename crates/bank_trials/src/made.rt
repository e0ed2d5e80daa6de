//! Tables, families and timetables for the trials: six events, eight spans and eight journeys.
use crate::dice::Dice;
use records::{Journey, Span};
use std::array;

// A span between two of the six events, with bounds that the period allows.
fn span(dice: &mut Dice, period: u8) -> Span {
    let from = u16::from(dice.below(6));
    let to = (from + 1 + u16::from(dice.below(5))) % 6;
    let lower = dice.below(period);
    let upper = lower.wrapping_add(dice.below(period));
    Span {
        index: 1,
        from: from + 1,
        to: to + 1,
        lower,
        upper,
        ..Span::BLANK
    }
}

pub fn spans(dice: &mut Dice, period: u8) -> [Span; 8] {
    array::from_fn(|_| span(dice, period))
}

// The six events in some order.
fn shuffled(dice: &mut Dice) -> [u16; 6] {
    let mut chain = [1, 2, 3, 4, 5, 6];
    // By place: a swap needs two.
    for i in 0..chain.len() {
        chain.swap(i, usize::from(dice.below(6)));
    }
    chain
}

// A journey over two to six of the events.
fn journey(dice: &mut Dice) -> Journey {
    Journey {
        index: 1,
        count: dice.below(5) + 2,
        cap: u16::from(dice.below(200)),
        chain: shuffled(dice),
        ..Journey::BLANK
    }
}

pub fn journeys(dice: &mut Dice) -> [Journey; 8] {
    array::from_fn(|_| journey(dice))
}

// Six sets of minutes up to 63, whatever the period: those minutes that are in each of so many random sets.
pub fn family(dice: &mut Dice, sets: u8) -> [u64; 6] {
    array::from_fn(|_| (0..sets).fold(u64::MAX, |met, _| met & dice.set()))
}

// Six minutes below the period, but now and then one beyond it.
pub fn minutes(dice: &mut Dice, period: u8) -> [u8; 6] {
    let mut list = array::from_fn(|_| dice.below(period));
    if dice.below(8) == 0 {
        list[0] = period;
    }
    list
}
