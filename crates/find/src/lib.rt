//! The earliest timetable from a floor on.
#![tactic(auto)]

ghost use Rattle.std.specs.Prelude.{◌≡◌, ◌*◌, ◌≤◌, length};
ghost use Rattle.calls.specs.Calls.{find_refusal, unless_refused};
ghost use Rattle.settle.specs.Workspace.{cleared};
ghost use Rattle.plan.specs.Contents.{sets_of};
ghost use Rattle.search.specs.Search.{WellPosed, FloorOf};
ghost use Rattle.search.specs.Theorems.{problem};
ghost use Rattle.find.specs.Outcome.{Outcome, Replied};
ghost use Rattle.find.specs.Onward.{GoesOn};

use bank::{Bank, all_below};
use plan::Plan;
use refusals::Refusal;
use search::Answer;
use settle::{FitBank, WORKSPACE, clear_workspace};
use walk::walk;

// Walks from the floor on, and writes what is found or the floor to go on from (internal: what calls it has made the tests).
// The workspace ends at any value. A search allocates nothing, so the two lists of minutes have the most places there can be.
fn seek<B: Bank>(
    bank: &FitBank<B>,
    allowed: &[u64],
    floor: &[u8],
    budget: u32,
    timetable: &mut [u8],
    workspace: &mut [u64],
) -> Answer
    requires posed { WellPosed (problem (B.meaning bank.now.bank.now) allowed.now) }
    requires floor { FloorOf (problem (B.meaning bank.now.bank.now) allowed.now) floor.now }
    requires timetable { length allowed.now ≤ length timetable.old }
    requires workspace { 4 * length allowed.now ≤ length workspace.old }
    ensures { Outcome (problem (B.meaning bank.now.bank.now) allowed.now) floor.now budget timetable.old timetable.new result }
{
    let events = allowed.len();
    let mut edge_places = [0u8; 256];
    let mut onward_places = [0u8; 256];
    let edge = &mut edge_places[..events];
    let onward = &mut onward_places[..events];
    edge.copy_from_slice(&floor[..events]);
    onward.copy_from_slice(edge);
    let (root, others) = workspace.split_at_mut(events);
    let (rest, others) = others.split_at_mut(events);
    let (child, others) = others.split_at_mut(events);
    let sets = &mut others[..events];
    let answer = walk(bank, allowed, budget, edge, onward, root, rest, child, sets);
    match answer {
        Answer::Found(_) => timetable[..events].copy_from_slice(edge),
        Answer::Spent(_) => timetable[..events].copy_from_slice(onward),
        Answer::Nothing(_) => {}
    }
    answer
}

// The earliest timetable from the floor on that has allowed minutes only and meets every relation of the bank, with the number
// of dead ends before it; or none, with the number of all; or spent, where there are more dead ends than the budget. Found
// writes the timetable, spent the floor to go on from, to the first places of `timetable`. Short where the floor or
// `timetable` has fewer places than there are events, or the workspace fewer than 4,096; Range where a minute of the floor is
// outside the period; Bank where the plan cannot take the bank. The workspace's first 4,096 numbers are 0 afterwards. A
// refusal changes nothing.
pub fn find<B: Bank>(
    plan: &Plan,
    bank: &B,
    floor: &[u8],
    budget: u32,
    timetable: &mut [u8],
    workspace: &mut [u64],
) -> Result<Answer, Refusal>
    ensures answer { Replied (find_refusal plan.now.contents.period plan.now.contents.events (B.meaning bank.now) floor.now (length timetable.old) (length workspace.old)) (problem (B.meaning bank.now) (sets_of plan.now.contents)) floor.now budget timetable.old timetable.new result }
    ensures workspace { workspace.new ≡ unless_refused (find_refusal plan.now.contents.period plan.now.contents.events (B.meaning bank.now) floor.now (length timetable.old) (length workspace.old)) (cleared workspace.old) workspace.old }
    ensures list { GoesOn plan.now.contents (B.meaning bank.now) floor.now budget timetable.old timetable.new (length workspace.old) result }
{
    let allowed = plan.family();
    let events = allowed.len();
    if floor.len() < events || timetable.len() < events || workspace.len() < WORKSPACE {
        return Err(Refusal::Short);
    }
    if !all_below(&floor[..events], plan.period()) {
        return Err(Refusal::Range);
    }
    let bank = FitBank::new(bank, plan.period(), plan.events())?;
    let lists = &mut workspace[..WORKSPACE];
    let answer = seek(&bank, allowed, floor, budget, timetable, lists);
    clear_workspace(workspace);
    Ok(answer)
}
