//! Banks by number, so that one list of calls may bring several.
ghost use Rattle.std.specs.Prelude.{◌≡◌, ℕ, ◌/◌, if◌then◌else◌};
ghost use Rattle.either_bank.specs.Choice.{odd, numbered_of};
ghost use Rattle.either_bank.specs.declared.Either.TheVariants.{First, Second};

use crate::Either;
use bank::Bank;

// A bank that stands for banks of one type, by number: every number is that of one of them.
pub trait Banks: Bank {
    type One: Bank;

    ghost numbered: { Self → ℕ → Self.One };

    // Bank number `n`.
    fn numbered(&self, n: usize) -> Self::One
        ensures { result ≡ numbered self.now n };
}

// One bank, at every number.
#[derive(Clone, Copy, Drop)]
pub struct One<B> {
    pub bank: B,
}

// The even numbers are those of the first, the odd ones those of the second, each by half the number. As a bank it is its
// first.
#[derive(Clone, Copy, Drop)]
pub struct Both<A, B> {
    pub first: A,
    pub second: B,
}

impl<B: Bank> Bank for One<B> {
    ghost meaning = { λ s. B.meaning s.bank };

    fn period(&self) -> u8 {
        self.bank.period()
    }

    fn size(&self) -> usize {
        self.bank.size()
    }

    fn reach(&self) -> usize {
        self.bank.reach()
    }

    fn holds(&self, k: usize, minutes: &[u8]) -> bool {
        self.bank.holds(k, minutes)
    }

    fn narrow(&self, k: usize, family: &mut [u64]) -> bool {
        self.bank.narrow(k, family)
    }

    ghost laws = { λ s. B.laws s.bank };
}

impl<A: Bank, B> Bank for Both<A, B> {
    ghost meaning = { λ s. A.meaning s.first };

    fn period(&self) -> u8 {
        self.first.period()
    }

    fn size(&self) -> usize {
        self.first.size()
    }

    fn reach(&self) -> usize {
        self.first.reach()
    }

    fn holds(&self, k: usize, minutes: &[u8]) -> bool {
        self.first.holds(k, minutes)
    }

    fn narrow(&self, k: usize, family: &mut [u64]) -> bool {
        self.first.narrow(k, family)
    }

    ghost laws = { λ s. A.laws s.first };
}

impl<B: Bank + Copy> Banks for One<B> {
    type One = B;

    ghost numbered = { λ s _. s.bank };

    fn numbered(&self, _n: usize) -> B {
        self.bank
    }
}

impl<A: Banks, B: Banks> Banks for Both<A, B> {
    type One = Either<A::One, B::One>;

    ghost numbered = { λ s n. if odd n then Second (B.numbered s.second (n / 2)) else First (A.numbered s.first (n / 2)) };

    fn numbered(&self, n: usize) -> Either<A::One, B::One> {
        if n % 2 == 1 {
            Either::Second(self.second.numbered(n / 2))
        } else {
            Either::First(self.first.numbered(n / 2))
        }
    }
}

// The numbers of the one that is there.
impl<A: Banks, B: Banks> Banks for Either<A, B> {
    type One = Either<A::One, B::One>;

    ghost numbered = { numbered_of A.numbered B.numbered };

    fn numbered(&self, n: usize) -> Either<A::One, B::One> {
        match self {
            Either::First(banks) => Either::First(banks.numbered(n)),
            Either::Second(banks) => Either::Second(banks.numbered(n)),
        }
    }
}
