//! What is left of an event's minutes.
#![tactic(auto)]

ghost use Rattle.std.specs.Prelude.{◌+◌, ◌<◌, length};
ghost use Rattle.rest.specs.Rest.{Left, Suits};
ghost use Rattle.left.specs.Leaves.{Leaves};

use bank::Bank;
use plan::Plan;
use refusals::Refusal;
use settle::{FitBank, WORKSPACE, clear_workspace};

// What is left at the place, once the family is narrowed to its rest.
fn left_at<B: Bank>(bank: &FitBank<B>, family: &mut [u64], place: usize) -> u64
    requires suits { Suits (B.meaning bank.now.bank.now) family.old }
    requires place { place < length family.old }
    ensures { Left (B.meaning bank.now.bank.now) family.old (place + 1) result }
{
    let alive = bank.narrow_to_rest(family);
    if alive { family[place] } else { 0 }
}

// What is left of the event's minutes under the bank: its set in the rest of the allowed family, or 0 where some set of
// that rest is empty. Short where the workspace has fewer than 4,096 numbers, Event where there is no such event, Bank where
// the plan cannot take the bank. The workspace's first 4,096 numbers are 0 afterwards, or as before where it refuses.
pub fn left<B: Bank>(
    plan: &Plan,
    bank: &B,
    event: u16,
    workspace: &mut [u64],
) -> Result<u64, Refusal>
    ensures { Leaves plan.now.contents (B.meaning bank.now) event workspace.old workspace.new result }
{
    if workspace.len() < WORKSPACE {
        return Err(Refusal::Short);
    }
    let place = plan.place_of(event)?;
    let bank = FitBank::new(bank, plan.period(), plan.events())?;
    let allowed = plan.family();
    let family = &mut workspace[..allowed.len()];
    family.copy_from_slice(allowed);
    let answer = left_at(&bank, family, place);
    clear_workspace(workspace);
    Ok(answer)
}
