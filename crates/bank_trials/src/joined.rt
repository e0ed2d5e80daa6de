//! Trials of pairs and waivers, and of check: their answers beside those of the banks below.
use crate::dice::Dice;
use crate::made;
use crate::trial::{Tally, below, narrows_to};
use bank::Bank;
use checks::check;
use pair::Pair;
use refusals::Refusal;
use waiver::Waiver;

// Two banks of eight relations each, asked one by one, and which relation of the sixteen is waived.
#[derive(Drop)]
struct Apart<A, B> {
    first: A,
    second: B,
    waived: Option<usize>,
}

impl<A: Bank, B: Bank> Apart<A, B> {
    // Whether relation `k` holds.
    fn holds(&self, k: usize, minutes: &[u8]) -> bool {
        match k {
            _ if self.waived == Some(k) => true,
            0..8 => self.first.holds(k, minutes),
            8..16 => self.second.holds(k - 8, minutes),
            _ => false,
        }
    }

    // What relation `k` narrows the family to.
    fn narrowed(&self, k: usize, before: [u64; 6]) -> [u64; 6] {
        let mut family = before;
        let _ = match k {
            _ if self.waived == Some(k) => false,
            0..8 => self.first.narrow(k, &mut family),
            8..16 => self.second.narrow(k - 8, &mut family),
            _ => false,
        };
        family
    }

    // What check should say of minutes that are below the period or not.
    fn checked(&self, valid: bool, minutes: &[u8]) -> Result<Option<usize>, Refusal> {
        if !valid {
            return Err(Refusal::Range);
        }
        Ok((0..16).find(|k| !self.holds(*k, minutes)))
    }

    // Each relation of the two as one bank, and two numbers that none has, on one family and one list of minutes.
    fn try_each<J: Bank>(
        &self,
        all: &J,
        // whether the minutes are below the period: a bank answers no where they are not
        valid: bool,
        family: [u64; 6],
        minutes: &[u8],
        tally: &mut Tally,
    ) {
        for k in 0..18 {
            tally.note(narrows_to(all, k, family, self.narrowed(k, family)));
            tally.note(all.holds(k, minutes) == (valid && self.holds(k, minutes)));
        }
    }
}

// The pair of two banks of eight relations each under a waiver of one of them.
pub fn joined_once<A: Bank + Copy, B: Bank + Copy>(
    first: A,
    second: B,
    dice: &mut Dice,
    tally: &mut Tally,
) {
    let period = first.period();
    let mut all = Waiver::new(Pair { first, second });
    let off = usize::from(dice.below(16));
    tally.note(all.waive(off).is_ok());
    tally.note(all.waive(512).is_err());
    let family = made::family(dice, 4);
    let minutes = made::minutes(dice, period);
    let valid = below(&minutes, all.reach(), period);
    let mut apart = Apart {
        first,
        second,
        waived: Some(off),
    };
    apart.try_each(&all, valid, family, &minutes, tally);
    tally.note(check(&all, &minutes) == apart.checked(valid, &minutes));
    tally.note(all.reinstate(off).is_ok());
    apart.waived = None;
    tally.note(check(&all, &minutes) == apart.checked(valid, &minutes));
}
