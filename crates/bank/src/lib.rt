//! Banks of relations: the interface that a search stands on.
#![tactic(auto)]

ghost use Rattle.std.specs.Prelude.{◌≡◌, min, length};
ghost use Rattle.relations.specs.Meaning.{Meaning, Laws, size};
ghost use Rattle.bank.specs.Calls.{in_limits, all_below, answer, Narrows};

// Relations over the events 1 to `reach`, numbered from 0: each a condition on timetables and a narrowing of families.
// No call changes the bank, and each says what it answers for every input.
pub trait Bank {
    // the period, the reach, and the relations, each with its condition and its narrowing
    ghost meaning: { Self → Meaning };

    fn period(&self) -> u8
        ensures { result ≡ (meaning self.now).period };

    // The number of relations; 513 for every larger one.
    fn size(&self) -> usize
        ensures { result ≡ min (size (meaning self.now)) 513 };

    // The highest event that counts; 257 for every higher one.
    fn reach(&self) -> usize
        ensures { result ≡ min (meaning self.now).reach 257 };

    // Whether the condition of relation `k` holds of the minutes: no outside the limits on number and length,
    // and where one of the first `reach` minutes is not below the period.
    fn holds(&self, k: usize, minutes: &[u8]) -> bool
        ensures { result ≡ answer (meaning self.now) k minutes.now };

    // Replaces the family by what relation `k` narrows it to, and says whether a set changed:
    // outside the limits on number and length none does.
    fn narrow(&self, k: usize, family: &mut [u64]) -> bool
        ensures { Narrows (meaning self.now) k family.old family.new result };

    // Narrowing adds no minute, loses no timetable that meets the condition, keeps a family within a wider one so, and neither
    // changes nor reads a set beyond the reach; of single minutes it empties no set exactly when the condition holds; and no
    // condition depends on an event above the reach.
    ghost laws: { (b : Self) → Laws (meaning b) };
}

// Whether number `k` and the length of a list are ones that a bank of this size and reach looks at.
pub fn in_limits(size: usize, reach: usize, k: usize, len: usize) -> bool
    ensures { result ≡ in_limits size reach k len }
{
    k < size && k < 512 && reach <= len && len <= 256
}

// Whether each minute is below the period.
pub fn all_below(minutes: &[u8], period: u8) -> bool
    ensures { result ≡ all_below period minutes.now }
{
    // A loop: what `all` compiles to takes five times as many instructions.
    for m in minutes {
        if *m >= period {
            return false;
        }
    }
    true
}
