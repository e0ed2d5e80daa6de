//! Least lengths of ways through the sets of a chain, minute by minute.
ghost use Rattle.std.specs.Prelude.{◌≡◌, ℕ, ◌+◌, ◌-◌, ◌<◌, ◌≤◌, ◌&&◌, length, replicate, if◌then◌else◌, nat_le};
ghost use Rattle.minutes.specs.Minutes.{at};
ghost use Rattle.relations.specs.ExactNarrowing.{has, those};
ghost use Rattle.relations.specs.Tables.{Chain};
ghost use Rattle.journeys.specs.Lengths.{no_way, ahead, onward, behind, Holds, Swept};

use minutes::{Period, has};

// The length where no way leads: longer than any cap.
const NO_WAY: u16 = 1000;

// A length for each minute, none above `NO_WAY`.
#[derive(Clone, Copy)]
pub(crate) struct Row {
    lengths: [u16; 64],
    ghost small: { (m : ℕ) → at lengths m ≤ 1000 },
}

// The loops go by minute: its number counts too, in the set or as a length, and of what a zip with `iter_mut` writes a
// proof knows nothing.
impl Row {
    // Length 0 for every minute.
    pub(crate) fn zero() -> Row
        ensures { result.lengths ≡ replicate 64 0 }
    {
        Row { lengths: [0; 64] }
    }

    // The lengths by the minutes of the set; no way by the others.
    fn within(&self, set: u64, period: Period) -> Row
        ensures { Holds period.minutes (λ m. (if has m set then at self.now.lengths m else no_way)) result.lengths }
    {
        let mut lengths = [NO_WAY; 64];
        for m in 0..period.minutes {
            let length = self.lengths[m as usize];
            lengths[m as usize] = if has(set, m) { length } else { NO_WAY };
        }
        Row { lengths }
    }

    // The lengths from the last minute of the period to the first.
    fn reversed(&self, period: Period) -> Row
        ensures { Holds period.minutes (λ m. at self.now.lengths (period.minutes - 1 - m)) result.lengths }
    {
        let mut lengths = self.lengths;
        lengths[..period.minutes as usize].reverse();
        Row { lengths }
    }

    // The least length to the last minute of the period.
    fn to_last(&self, period: Period) -> u16
        ensures { result ≡ ahead period.minutes (at self.now.lengths) (period.minutes - 1) }
    {
        let last = period.minutes - 1;
        let mut best = NO_WAY;
        for a in 0..period.minutes {
            best = best.min(self.lengths[a as usize] + (last - a) as u16);
        }
        best
    }

    // The least lengths to all minutes, in one scan: a minute is reached from the one before it, a minute later.
    fn ahead(&self, period: Period) -> Row
        ensures { Holds period.minutes (ahead period.minutes (at self.now.lengths)) result.lengths }
    {
        let mut lengths = [NO_WAY; 64];
        let mut best = self.to_last(period);
        for b in 0..period.minutes {
            best = (best + 1).min(self.lengths[b as usize]);
            lengths[b as usize] = best;
        }
        Row { lengths }
    }

    // The least lengths to the minutes of the set, where these lead to the minutes before.
    fn onward(&self, set: u64, period: Period) -> Row
        ensures { Holds period.minutes (onward period.minutes (at self.now.lengths) set) result.lengths }
    {
        self.ahead(period).within(set, period)
    }

    // The least lengths from each minute through the set and on, where these lead on from it: the way back, read backwards.
    fn to_go(&self, set: u64, period: Period) -> Row
        ensures { Holds period.minutes (behind period.minutes (at self.now.lengths) set) result.lengths }
    {
        self.within(set, period)
            .reversed(period)
            .ahead(period)
            .reversed(period)
    }
}

// Whether a way within the cap leads by minute `m` of the set.
fn within_cap(here: &Row, next: &Row, set: u64, m: u8, cap: u16) -> bool
    requires m { m < 64 }
    ensures { result ≡ (has m set && nat_le (at here.now.lengths m + at next.now.lengths m) cap) }
{
    // `&` and no branch, which would often be guessed wrong.
    has(set, m) & (here.lengths[m as usize] + next.lengths[m as usize] <= cap)
}

// The minutes of the set by which a way within the cap leads.
fn kept_set(here: &Row, next: &Row, set: u64, cap: u16, period: Period) -> u64
    ensures { result ≡ those period.minutes (λ m. has m set && nat_le (at here.now.lengths m + at next.now.lengths m) cap) }
{
    // A loop: written with `filter` and `fold`, narrowing takes a seventh more time.
    let mut left: u64 = 0;
    for m in 0..period.minutes {
        if within_cap(here, next, set, m, cap) {
            left |= 1u64 << m;
        }
    }
    left
}

// Narrows the sets of the chain's events, where `fore` has the least lengths to the minutes before. Answers the least
// lengths from each minute through the chain, and whether a set changed.
pub(crate) fn sweep(
    chain: &[u16],
    cap: u16,
    period: Period,
    family: &mut [u64],
    fore: &Row,
) -> (Row, bool)
    requires { 0 < length chain.now → Chain (length family.old) chain.now }
    ensures { Swept period.minutes cap fore.now.lengths chain.now family.old family.new result.0.lengths result.1 }
{
    let Some((event, rest)) = chain.split_first() else {
        return (Row::zero(), false);
    };
    let place = *event as usize - 1;
    let set = family[place];
    let here = fore.onward(set, period);
    let (next, changed) = sweep(rest, cap, period, family, &here);
    let kept = kept_set(&here, &next, set, cap, period);
    family[place] = kept;
    (next.to_go(set, period), changed || kept != set)
}
