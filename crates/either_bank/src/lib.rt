//! A bank that is one of two banks, of types that may differ.
#![tactic(auto)]

ghost use Rattle.either_bank.specs.Choice.{meaning_of, laws_of};

use bank::Bank;

pub mod numbered;

// One of two banks, so that one list can bring banks of both types.
#[derive(Clone, Copy, Drop)]
pub enum Either<A, B> {
    First(A),
    Second(B),
}

impl<A: Bank, B: Bank> Bank for Either<A, B> {
    ghost meaning = { meaning_of A.meaning B.meaning };

    fn period(&self) -> u8 {
        match self {
            Either::First(bank) => bank.period(),
            Either::Second(bank) => bank.period(),
        }
    }

    fn size(&self) -> usize {
        match self {
            Either::First(bank) => bank.size(),
            Either::Second(bank) => bank.size(),
        }
    }

    fn reach(&self) -> usize {
        match self {
            Either::First(bank) => bank.reach(),
            Either::Second(bank) => bank.reach(),
        }
    }

    fn holds(&self, k: usize, minutes: &[u8]) -> bool {
        match self {
            Either::First(bank) => bank.holds(k, minutes),
            Either::Second(bank) => bank.holds(k, minutes),
        }
    }

    fn narrow(&self, k: usize, family: &mut [u64]) -> bool {
        match self {
            Either::First(bank) => bank.narrow(k, family),
            Either::Second(bank) => bank.narrow(k, family),
        }
    }

    ghost laws = { laws_of A.meaning B.meaning A.laws B.laws };
}
