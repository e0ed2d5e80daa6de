//! Two banks as one.
#![tactic(auto)]

ghost use Rattle.relations.specs.Joins.{joined};
ghost use Rattle.relations.proofs.Joining.{joins_are_lawful};

use bank::{Bank, all_below, in_limits};

// The relations of the first bank, then those of the second. Its period is the common one, or 0.
#[derive(Clone, Copy, Drop)]
pub struct Pair<A, B> {
    pub first: A,
    pub second: B,
}

impl<A: Bank, B: Bank> Bank for Pair<A, B> {
    ghost meaning = { λ s. joined (A.meaning s.first) (B.meaning s.second) };

    fn period(&self) -> u8 {
        let period = self.first.period();
        if period == self.second.period() {
            period
        } else {
            0
        }
    }

    fn size(&self) -> usize {
        (self.first.size() + self.second.size()).min(513)
    }

    fn reach(&self) -> usize {
        self.first.reach().max(self.second.reach())
    }

    fn holds(&self, k: usize, minutes: &[u8]) -> bool {
        let reach = self.reach();
        if !in_limits(self.size(), reach, k, minutes.len()) {
            return false;
        }
        if !all_below(&minutes[..reach], self.period()) {
            return false;
        }
        let first = self.first.size();
        if k < first {
            return self.first.holds(k, minutes);
        }
        self.second.holds(k - first, minutes)
    }

    fn narrow(&self, k: usize, family: &mut [u64]) -> bool {
        if !in_limits(self.size(), self.reach(), k, family.len()) {
            return false;
        }
        let first = self.first.size();
        if k < first {
            return self.first.narrow(k, family);
        }
        self.second.narrow(k - first, family)
    }

    ghost laws = { λ s. joins_are_lawful.of_joined (A.meaning s.first) (B.meaning s.second) (A.laws s.first) (B.laws s.second) };
}
