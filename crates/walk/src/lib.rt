//! The search for the earliest timetable (internal: what calls it has tested plan, floor and bank).
#![tactic(auto)]

ghost use Rattle.std.specs.Prelude.{◌≡◌, ◌<◌, ◌≤◌, length};
ghost use Rattle.minutes.specs.Minutes.{NoneEmpty};
ghost use Rattle.rest.specs.Rest.{Suits};
ghost use Rattle.search.specs.Search.{held, WellPosed, FloorOf, Way, Finds};
ghost use Rattle.search.specs.Theorems.{problem};
ghost use Rattle.settle.specs.Settles.{Settles};
ghost use Rattle.walk.specs.Walking.{Refreshed, Descended, to_write};

use bank::Bank;
use search::Answer;
use settle::FitBank;
use steps::{Prefix, hold, lower, lowest, raise};

// That a family suits the bank and is as long as another stands at each of these: they are lent to be changed, so no type of
// ours can hold it.

// Goes back where `rest` is stale: it becomes the rest of the prefix, from the rest of the allowed family.
fn refresh<B: Bank>(bank: &FitBank<B>, stale: bool, root: &[u64], prefix: Prefix, rest: &mut [u64])
    requires suits { Suits (B.meaning bank.now.bank.now) root.now }
    requires rest { length rest.old ≡ length root.now }
    requires short { length prefix.list.now ≤ length root.now }
    ensures { Refreshed (B.meaning bank.now.bank.now) (held prefix.entry.list.now root.now) rest.old rest.new stale }
{
    if stale {
        hold(root, prefix, rest);
        bank.narrow_to_rest(rest);
    }
}

// Narrows `child`, from the rest of a shorter prefix, to the rest of this one, and says whether no set of that is empty; where
// one is, `child` is of no use.
fn narrow_child<B: Bank>(bank: &FitBank<B>, rest: &[u64], prefix: Prefix, child: &mut [u64]) -> bool
    requires suits { Suits (B.meaning bank.now.bank.now) rest.now }
    requires child { length child.old ≡ length rest.now }
    requires short { length prefix.list.now ≤ length rest.now }
    ensures { Settles (B.meaning bank.now.bank.now) (held prefix.entry.list.now rest.now) child.new result }
{
    hold(rest, prefix, child);
    bank.settle(child)
}

// Goes down to this prefix, from the rest of the one without its last minute, by way of `child`, and says whether no set of
// the new rest is empty; where one is, `rest` stays. An event that has only that minute left needs no narrowing.
fn descend<B: Bank>(bank: &FitBank<B>, prefix: Prefix, rest: &mut [u64], child: &mut [u64]) -> bool
    requires suits { Suits (B.meaning bank.now.bank.now) rest.old }
    requires full { NoneEmpty rest.old }
    requires some { 0 < length prefix.list.now }
    requires short { length prefix.list.now ≤ length rest.old }
    requires child { length child.old ≡ length rest.old }
    ensures { Descended (B.meaning bank.now.bank.now) prefix.entry.list.now rest.old rest.new result }
{
    let last = prefix.list.len() - 1;
    if rest[last] == 1u64 << prefix.list[last] {
        return true;
    }
    if narrow_child(bank, rest, prefix, child) {
        rest.copy_from_slice(child);
        return true;
    }
    false
}

// Walks from the floor in `edge` on, event by event and at each the minutes in rising order. Before `edge` there are `count`
// dead ends and no timetable that is sought, and `onward` is the first timetable after the last of these. The first `d`
// minutes of `edge` are alive; `sets` has what each of these left to the event behind it, so that going back is for an event
// that has another minute. Unless it is stale, `rest` is the rest of the `d` minutes; an Option would lose the list that it is
// made in. The lists have a place for each event: a struct of them would be taken apart here again, since each is lent alone.
pub fn walk<B: Bank>(
    bank: &FitBank<B>,
    allowed: &[u64],
    budget: u32,
    edge: &mut [u8],
    onward: &mut [u8],
    root: &mut [u64],
    rest: &mut [u64],
    child: &mut [u64],
    sets: &mut [u64],
) -> Answer
    requires posed { WellPosed (problem (B.meaning bank.now.bank.now) allowed.now) }
    requires floor { FloorOf (problem (B.meaning bank.now.bank.now) allowed.now) edge.old }
    requires edge { length edge.old ≡ length allowed.now }
    requires onward { onward.old ≡ edge.old }
    requires root { length root.old ≡ length allowed.now }
    requires rest { length rest.old ≡ length allowed.now }
    requires child { length child.old ≡ length allowed.now }
    requires sets { length sets.old ≡ length allowed.now }
    ensures { (way : Way (problem (B.meaning bank.now.bank.now) allowed.now)) → Finds (problem (B.meaning bank.now.bank.now) allowed.now) way edge.old budget result (to_write result edge.new onward.new) }
{
    let period = bank.bank.period();
    root.copy_from_slice(allowed);
    if !bank.narrow_to_rest(root) {
        return Answer::Nothing(0);
    }
    rest.copy_from_slice(root);
    sets[0] = rest[0];
    let mut d = 0;
    let mut count = 0;
    let mut stale = false;
    // No range ends it: the depth goes down and up again.
    'turns: loop {
        let Some(minute) = lowest(sets[d], edge[d], period) else {
            if d == 0 {
                return Answer::Nothing(count);
            }
            d = raise(edge, d, period);
            stale = true;
            continue;
        };
        refresh(bank, stale, root, Prefix { list: &edge[..d] }, rest);
        lower(edge, d, minute);
        if descend(bank, Prefix { list: &edge[..=d] }, rest, child) {
            d += 1;
            if d == allowed.len() {
                return Answer::Found(count);
            }
            sets[d] = rest[d];
            stale = false;
        } else {
            if count == budget {
                return Answer::Spent(count);
            }
            count += 1;
            let place = raise(edge, d + 1, period);
            onward.copy_from_slice(edge);
            stale = place < d;
            d = place;
        }
    }
}
