//! A bank of which some relations are waived.
#![tactic(auto)]

ghost use Rattle.std.specs.Prelude.{◌≡◌, ◌<◌, true, false, replicate, if◌then◌else◌, Ok, Err, nat_lt, slice_index_or, slice_set};
ghost use Rattle.refusals.specs.declared.Refusal.TheVariants.{Range};
ghost use Rattle.relations.specs.Joins.{waived};
ghost use Rattle.relations.proofs.Joining.{joins_are_lawful};

use bank::{Bank, all_below, in_limits};
use refusals::Refusal;

// Which of the numbers 0 to 511 are marked.
#[derive(Clone, Copy)]
pub struct Marks {
    pub marked: [bool; 512],
}

impl Marks {
    pub fn has(&self, k: usize) -> bool
        ensures { result ≡ slice_index_or self.now.marked k false }
    {
        self.marked.get(k).copied().unwrap_or(false)
    }

    // Marks number `k`, or takes its mark away. Range where there is no such number.
    fn set(&mut self, k: usize, marked: bool) -> Result<(), Refusal>
        ensures answer { result ≡ (if nat_lt k 512 then Ok tt else Err Range) }
        ensures marks { self.new.marked ≡ (if nat_lt k 512 then slice_set self.old.marked k marked else self.old.marked) }
    {
        if k >= 512 {
            return Err(Refusal::Range);
        }
        self.marked[k] = marked;
        Ok(())
    }
}

// The relations of a bank, of which the marked ones hold of every timetable and narrow nothing.
#[derive(Clone, Copy, Drop)]
pub struct Waiver<B> {
    pub bank: B,
    pub marks: Marks,
}

impl<B> Waiver<B> {
    // The bank with no relation waived.
    pub fn new(bank: B) -> Waiver<B>
        ensures under { result.bank ≡ bank }
        ensures clear { result.marks.marked ≡ replicate 512 false }
    {
        Waiver {
            bank,
            marks: Marks {
                marked: [false; 512],
            },
        }
    }

    // Waives relation `k`.
    pub fn waive(&mut self, k: usize) -> Result<(), Refusal>
        ensures answer { result ≡ (if nat_lt k 512 then Ok tt else Err Range) }
        ensures under { self.new.bank ≡ self.old.bank }
        ensures marks { self.new.marks.marked ≡ (if nat_lt k 512 then slice_set self.old.marks.marked k true else self.old.marks.marked) }
    {
        self.marks.set(k, true)
    }

    // Waives relation `k` no more.
    pub fn reinstate(&mut self, k: usize) -> Result<(), Refusal>
        ensures answer { result ≡ (if nat_lt k 512 then Ok tt else Err Range) }
        ensures under { self.new.bank ≡ self.old.bank }
        ensures marks { self.new.marks.marked ≡ (if nat_lt k 512 then slice_set self.old.marks.marked k false else self.old.marks.marked) }
    {
        self.marks.set(k, false)
    }
}

impl<B: Bank> Bank for Waiver<B> {
    ghost meaning = { λ s. waived s.marks.marked (B.meaning s.bank) };

    fn period(&self) -> u8 {
        self.bank.period()
    }

    fn size(&self) -> usize {
        self.bank.size()
    }

    fn reach(&self) -> usize {
        self.bank.reach()
    }

    fn holds(&self, k: usize, minutes: &[u8]) -> bool {
        let marked = self.marks.has(k);
        if !marked {
            return self.bank.holds(k, minutes);
        }
        let reach = self.bank.reach();
        if !in_limits(self.bank.size(), reach, k, minutes.len()) {
            return false;
        }
        all_below(&minutes[..reach], self.bank.period())
    }

    fn narrow(&self, k: usize, family: &mut [u64]) -> bool {
        let marked = self.marks.has(k);
        if marked {
            return false;
        }
        self.bank.narrow(k, family)
    }

    ghost laws = { λ s. joins_are_lawful.of_waived s.marks.marked (B.meaning s.bank) (B.laws s.bank) };
}
