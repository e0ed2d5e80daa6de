//! A list of calls worked out by hand, so that the law over runs is seen to speak of something.
#![tactic(auto)]

ghost use Rattle.worked_runs.specs.Example.{WorkedRun};

pub mod free;

// A lawful meaning with dead ends, a way of narrowing, and a list of calls with a spent find and the find that goes on from it:
// what the law over runs and resuming ask for is met, and resuming says what one find with both budgets answers.
pub fn a_resumed_search_is_met()
    ensures { WorkedRun }
{}
