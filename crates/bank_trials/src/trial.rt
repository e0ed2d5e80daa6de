//! One round of trials: a bank's answers beside those of plain enumeration.
use crate::dice::Dice;
use crate::made;
use crate::plain::Record;
use bank::Bank;

// How many answers were compared, and how many were not the same.
#[derive(Clone, Copy, Default)]
pub struct Tally {
    pub compared: u32,
    pub wrong: u32,
}

impl Tally {
    pub fn note(&mut self, right: bool) {
        self.compared = self.compared.saturating_add(1);
        if !right {
            self.wrong = self.wrong.saturating_add(1);
        }
    }
}

// Whether each of the first `reach` minutes is below the period.
pub fn below(minutes: &[u8], reach: usize, period: u8) -> bool {
    minutes.iter().take(reach).all(|m| *m < period)
}

// Narrows by relation `k`, and says whether the family and the answer are as they should be.
pub fn narrows_to<B: Bank>(bank: &B, k: usize, before: [u64; 6], after: [u64; 6]) -> bool {
    let mut family = before;
    let changed = bank.narrow(k, &mut family);
    family == after && changed == (before != after)
}

// Each record of the table, on one family, each set of it the common part of so many random ones, and one list of minutes.
pub fn records_once<R: Record, B: Bank>(
    bank: &B,
    table: &[R],
    period: u8,
    sets: u8,
    dice: &mut Dice,
    tally: &mut Tally,
) {
    let family = made::family(dice, sets);
    let minutes = made::minutes(dice, period);
    let valid = below(&minutes, bank.reach(), period);
    for (k, record) in table.iter().enumerate() {
        let mut after = family;
        record.narrow(period, &mut after);
        tally.note(narrows_to(bank, k, family, after));
        tally.note(bank.holds(k, &minutes) == (valid && record.met(period, &minutes)));
    }
}
