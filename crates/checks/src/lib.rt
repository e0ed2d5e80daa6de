//! Whether a timetable meets every relation of a bank.
#![tactic(auto)]

ghost use Rattle.std.specs.Prelude.{◌≡◌, ℕ, ◌&&◌, take, Ok, Option, nat_le};
ghost use Rattle.checks.specs.Checked.{checked, LowestFailing};

use bank::{Bank, all_below};
use refusals::Refusal;

// Whether `check` takes a bank of this size, period and reach.
fn is_fit(size: usize, period: u8, reach: usize) -> bool
    ensures { result ≡ (nat_le size 512 && (nat_le 2 period && (nat_le period 64 && nat_le reach 256))) }
{
    size <= 512 && (2..=64).contains(&period) && reach <= 256
}

// The lowest relation that does not hold of the first `reach` minutes; none where each holds.
// Refuses Bank, then Short where there are fewer minutes, then Range where one of them is not below the period.
pub fn check<B: Bank>(bank: &B, minutes: &[u8]) -> Result<Option<usize>, Refusal>
    ensures answer { result ≡ checked (B.meaning bank.now) minutes.now }
    ensures found { (o : Option ℕ) → result ≡ Ok o → LowestFailing (B.meaning bank.now) (take (B.meaning bank.now).reach minutes.now) o }
{
    let size = bank.size();
    let period = bank.period();
    let reach = bank.reach();
    if !is_fit(size, period, reach) {
        return Err(Refusal::Bank);
    }
    if minutes.len() < reach {
        return Err(Refusal::Short);
    }
    let first = &minutes[..reach];
    if !all_below(first, period) {
        return Err(Refusal::Range);
    }
    Ok((0..size).find(|k| !bank.holds(*k, first)))
}
