//! Journeys: what they mean, whether one holds, and their narrowing by least lengths.
//!
//! The functions are for the bank of journeys: each asks of its caller what that bank has tested.
#![tactic(auto)]

ghost use Rattle.std.specs.Prelude.{◌≡◌, ℕ, ◌<◌, ◌≤◌, true, false, map, length, ◌≢◌};
ghost use Rattle.minutes.specs.Minutes.{at};
ghost use Rattle.relations.specs.ExactNarrowing.{of};
ghost use Rattle.relations.specs.Conditions.{legs};
ghost use Rattle.relations.specs.Tables.{Chain};
ghost use Rattle.journeys.specs.Journeys.{journey_events, journey_relation};

use crate::lengths::{Row, sweep};
use minutes::Period;
use records::Journey;

mod lengths;

// The lengths of a chain's legs, added up.
fn chain_length(chain: &[u16], period: Period, minutes: &[u8]) -> u16
    requires few { length chain.now ≤ 6 }
    requires chain { Chain (length minutes.now) chain.now }
    requires below { (i : ℕ) → i < length chain.now → of minutes.now (at chain.now i) < period.minutes }
    ensures { result ≡ legs period.minutes (map (of minutes.now) chain.now) }
{
    let mut total: u16 = 0;
    for pair in chain.windows(2) {
        let a = minutes[pair[0] as usize - 1];
        let b = minutes[pair[1] as usize - 1];
        total += period.gap(a, b) as u16;
    }
    total
}

// Whether the journey holds of these minutes.
pub fn journey_holds(j: Journey, period: Period, minutes: &[u8]) -> bool
    requires few { j.count ≤ 6 }
    requires chain { Chain (length minutes.now) (journey_events j) }
    requires below { (i : ℕ) → i < length (journey_events j) → of minutes.now (at (journey_events j) i) < period.minutes }
    ensures { result ≡ (journey_relation period.minutes j).condition minutes.now }
{
    chain_length(&j.chain[..j.count as usize], period, minutes) <= j.cap
}

// Narrows the sets of the journey's events, and says whether one changed.
pub fn journey_narrow(j: Journey, period: Period, family: &mut [u64]) -> bool
    requires few { j.count ≤ 6 }
    requires cap { j.cap ≤ 315 }
    requires chain { Chain (length family.old) (journey_events j) }
    ensures after { family.new ≡ (journey_relation period.minutes j).narrowing family.old }
    ensures other { result ≡ true → family.new ≢ family.old }
    ensures same { result ≡ false → family.new ≡ family.old }
{
    let chain = &j.chain[..j.count as usize];
    let (_, changed) = sweep(chain, j.cap, period, family, &Row::zero());
    changed
}
