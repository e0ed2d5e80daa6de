//! The steps of the search (all of it internal): the lists of minutes that it goes through, and the families that belong to them.
#![tactic(auto)]

ghost use Rattle.std.specs.Prelude.{◌≡◌, ℕ, ◌<◌, ◌≤◌, length, take, MatchOption};
ghost use Rattle.minutes.specs.Minutes.{In, at};
ghost use Rattle.search.specs.Search.{held};
ghost use Rattle.search.proofs.Edges.{Raised, Lowered};
ghost use Rattle.steps.specs.Steps.{Lowest, ZerosFrom};

// The lowest minute of a set from `low` on, below the period.
pub fn lowest(set: u64, low: u8, period: u8) -> Option<u8>
    requires { period ≤ 64 }
    ensures { MatchOption result ((t : ℕ) → low ≤ t → t < period → In t set → ⊥) (λ t. Lowest set low t) }
{
    (low..period).find(
        |&t|
            requires { t < 64 }
        { (set >> t) & 1 == 1 },
    )
}

// The minutes that the first events have.
#[derive(Clone, Copy)]
pub struct Prefix<'a> {
    pub list: &'a [u8],
    pub ghost low: { (i : ℕ) → i < length list.now → at list.now i < 64 },
}

// The family, in which the first events keep only their minute of the prefix.
pub fn hold(family: &[u64], prefix: Prefix, out: &mut [u64])
    requires family { length family.now ≡ length out.old }
    requires short { length prefix.list.now ≤ length out.old }
    ensures { out.new ≡ held prefix.entry.list.now family.now }
{
    out.copy_from_slice(family);
    // By place: of what a zip with `iter_mut` writes, a proof knows nothing.
    for (i, minute) in prefix.list.iter().enumerate() {
        out[i] &= 1 << *minute;
    }
}

// Zeros from place `n` on.
fn zero_from(minutes: &mut [u8], n: usize)
    requires { n ≤ length minutes.old }
    ensures { ZerosFrom minutes.old n minutes.new }
{
    minutes[n..].fill(0);
}

// Goes on to the first list after all that begin with the first `d` minutes; returns the place that was raised. Where these
// are all the period's last, that list begins with the period.
pub fn raise(minutes: &mut [u8], d: usize, period: u8) -> usize
    requires some { 0 < d }
    requires deep { d ≤ length minutes.old }
    requires below { (i : ℕ) → i < d → at minutes.old i < period }
    ensures { Raised period (length minutes.old) minutes.old d result minutes.new }
{
    let last = period - 1;
    let place = minutes[..d].iter().rposition(|m| *m < last).unwrap_or(0);
    minutes[place] += 1;
    zero_from(minutes, place + 1);
    place
}

// Puts minute `t` at place `d`, with zeros behind where that is later.
pub fn lower(minutes: &mut [u8], d: usize, t: u8)
    requires deep { d < length minutes.old }
    requires later { at minutes.old d ≤ t }
    ensures { Lowered (length minutes.old) minutes.old d t minutes.new }
{
    if minutes[d] < t {
        minutes[d] = t;
        zero_from(minutes, d + 1);
    }
}
