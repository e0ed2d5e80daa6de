//! From the text of an instance to the answer of a search.
#![tactic(auto)]

ghost use Rattle.std.specs.Prelude.{◌≡◌, length};
ghost use Rattle.reading.specs.Views.{closed};
ghost use Rattle.solve.specs.Solved.{SearchOf, SolvedIf, start};

use bank::Bank;
use find::find;
use instance::Instance;
use plan::Plan;
use reading::readings::ClosedReading;
use records::{Journey, Span};
use refusals::{Fault, Refusal};
use search::Answer;

// How many dead ends a search may pass.
pub const BUDGET: u32 = 1_000_000;

// What was read and found: how many events there are, and the answer.
#[derive(Clone, Copy)]
pub struct Solution {
    pub events: u16,
    pub answer: Answer,
}

// The earliest timetable of the instance, with everything allowed, from minute 0 of every event on.
fn search_of(
    instance: &Instance,
    timetable: &mut [u8],
    workspace: &mut [u64],
) -> Result<Answer, Refusal>
    ensures { SearchOf (closed instance.now.reading) instance.now.spans.now instance.now.journeys.now timetable.old timetable.new workspace.old workspace.new result }
{
    let bank = instance.bank()?;
    let mut plan = Plan::blank();
    plan.make(instance.reading.period(), instance.reading.events())?;
    find(&plan, &bank, &[0; 256], BUDGET, timetable, workspace)
}

// From a text to its answer: the first fault of the text, and then tables and buffers are as before; or what a search
// answers on a new plan under the text's spans followed by its journeys, from minute 0 of every event on, with a budget
// of 1,000,000. Found writes the timetable, spent the floor to go on from, to the first places of `timetable`, which has
// at least 256; the workspace has at least 4,096 numbers.
pub fn solve(
    text: &[u8],
    spans: &mut [Span],
    journeys: &mut [Journey],
    timetable: &mut [u8],
    workspace: &mut [u64],
) -> Result<Solution, Fault>
    ensures { SolvedIf (start spans.old journeys.old text.now (length timetable.old) (length workspace.old)) spans.old spans.new journeys.old journeys.new timetable.old timetable.new workspace.old workspace.new result }
{
    if timetable.len() < 256 || workspace.len() < 4096 {
        return Err(Refusal::Short.into());
    }
    let reading = ClosedReading::read(text, spans, journeys)?;
    let instance = Instance {
        reading,
        spans,
        journeys,
    };
    let answer = search_of(&instance, timetable, workspace)?;
    Ok(Solution {
        events: reading.events(),
        answer,
    })
}
