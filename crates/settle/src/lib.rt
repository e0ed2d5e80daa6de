//! Turning a family into its rest, and what else `left` and `find` share (all of it internal).
#![tactic(auto)]

ghost use Rattle.std.specs.Prelude.{◌≡◌, ◌≤◌, true, false, length, replicate, MatchResult};
ghost use Rattle.relations.specs.Meaning.{size};
ghost use Rattle.rest.specs.Rest.{Rest, Suits};
ghost use Rattle.calls.specs.Calls.{bank_unfit};
ghost use Rattle.settle.specs.Settles.{Settles};
ghost use Rattle.settle.specs.Workspace.{cleared};

use bank::Bank;
use refusals::Refusal;

// A workspace has so many numbers, or more.
pub const WORKSPACE: usize = 4096;

// A bank of at most 512 relations, as every search asks for.
#[derive(Drop)]
pub struct FitBank<'b, B: Bank> {
    pub bank: &'b B,
    pub ghost small: { size (B.meaning bank.now) ≤ 512 },
}

// That a family suits the bank is asked three times below: it is lent to be changed, so no type of ours can hold the fact.
// Whether turns may end early is a flag, since two loops would differ in one test.
impl<'b, B: Bank> FitBank<'b, B> {
    // The bank; Bank where a plan of this period and so many events cannot take it.
    pub fn new(bank: &'b B, period: u8, events: u16) -> Result<FitBank<'b, B>, Refusal>
        requires { events ≤ 256 }
        ensures { MatchResult result (λ fit. (fit.bank.now ≡ bank.now) × (bank_unfit period events (B.meaning bank.now) ≡ false)) (λ e. (e ≡ Refusal.Bank) × (bank_unfit period events (B.meaning bank.now) ≡ true)) }
    {
        if bank.size() > 512 || bank.period() != period || bank.reach() > events as usize {
            return Err(Refusal::Bank);
        }
        Ok(FitBank { bank })
    }

    // Lets the relations take turns in narrowing, in the order of their numbers and round again, until each of them in a row
    // has left the family as it is; or, where it may stop early, until a set is empty after a round, since what is left of
    // it stays empty. Says whether no set is empty. No range ends the rounds: how many turns it takes is not known before.
    fn take_turns(&self, family: &mut [u64], early: bool) -> bool
        requires { Suits (B.meaning self.now.bank.now) family.old }
        ensures settles { Settles (B.meaning self.now.bank.now) family.old family.new result }
        ensures rest { early ≡ false → Rest (B.meaning self.now.bank.now) family.old family.new }
    {
        let size = self.bank.size();
        let mut k = 0;
        let mut quiet = 0;
        while quiet < size {
            let narrowed = self.bank.narrow(k, family);
            quiet = if narrowed { 0 } else { quiet + 1 };
            k = if k + 1 == size { 0 } else { k + 1 };
            if early && k == 0 && family.contains(&0) {
                return false;
            }
        }
        !family.contains(&0)
    }

    // Turns a family into its rest, and says whether no set of it is empty.
    pub fn narrow_to_rest(&self, family: &mut [u64]) -> bool
        requires { Suits (B.meaning self.now.bank.now) family.old }
        ensures rest { Rest (B.meaning self.now.bank.now) family.old family.new }
        ensures settles { Settles (B.meaning self.now.bank.now) family.old family.new result }
    {
        self.take_turns(family, false)
    }

    // Whether no set of the family's rest is empty. Where that is so, it turns the family into the rest; else it may stop
    // early, and what it leaves of the family is of no use.
    pub fn settle(&self, family: &mut [u64]) -> bool
        requires { Suits (B.meaning self.now.bank.now) family.old }
        ensures { Settles (B.meaning self.now.bank.now) family.old family.new result }
    {
        self.take_turns(family, true)
    }
}

// Sets every number to 0.
pub fn clear(numbers: &mut [u64])
    ensures { numbers.new ≡ replicate (length numbers.old) 0 }
{
    numbers.fill(0);
}

// Sets the first numbers of a workspace to 0.
pub fn clear_workspace(workspace: &mut [u64])
    requires { 4096 ≤ length workspace.old }
    ensures { workspace.new ≡ cleared workspace.old }
{
    clear(&mut workspace[..WORKSPACE]);
}
