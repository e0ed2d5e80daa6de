//! Replaying a list of calls on a new plan.
ghost use Rattle.std.specs.Prelude.{◌≡◌, ◌*◌, ◌≤◌, [], length, drop};
ghost use Rattle.calls.specs.Replies.{reply};
ghost use Rattle.plan.specs.Decided.{Decided};
ghost use Rattle.runs.specs.Requests.{call_of, calls_of, replay_refusal, wiped};
ghost use Rattle.runs.specs.Law.{RightReplies};
ghost use Rattle.runs.specs.Replayed.{Replayed};
ghost use Rattle.runs.specs.Onward.{GoesOn, Lent};

use crate::requests::{Action, Done, Reply, Request};
use bank::Bank;
use find::find;
use left::left;
use plan::Plan;
use refusals::Refusal;
use settle::clear;

// Makes one call (internal: `timetable` has a place for each event).
fn make_call<B: Bank>(
    plan: &mut Plan,
    request: &Request<B>,
    timetable: &mut [u8],
    workspace: &mut [u64],
) -> Reply
    requires { length timetable.old ≡ plan.old.contents.events }
    ensures on { GoesOn plan.old.contents (call_of B.meaning plan.old.contents.events (length workspace.old) request.now) plan.new.contents timetable.old timetable.new result }
    ensures workspace { Lent workspace.old workspace.new }
{
    match request.action {
        Action::Allow { event, set } => plan.allow(event, set).map(|()| Done::Accepted),
        Action::Open => plan.open().map(|()| Done::Accepted),
        Action::Shut => plan.shut().map(|()| Done::Accepted),
        Action::Left { event } => left(plan, request.bank, event, workspace).map(Done::Minutes),
        Action::Find { budget } => find(
            plan,
            request.bank,
            request.floor,
            budget,
            timetable,
            workspace,
        )
        .map(Done::Answered),
    }
}

// Makes the calls one after another (internal: there is a place for each reply, and for each call one for each event).
fn run<B: Bank>(
    plan: &mut Plan,
    requests: &[Request<B>],
    replies: &mut [Reply],
    timetables: &mut [u8],
    workspace: &mut [u64],
)
    requires new { Decided plan.old.contents [] }
    requires replies { length requests.now ≤ length replies.old }
    requires timetables { length requests.now * plan.old.contents.events ≤ length timetables.old }
    ensures right { RightReplies plan.old.contents.period plan.old.contents.events (calls_of B.meaning plan.old.contents.events (length workspace.old) requests.now) replies.new timetables.old timetables.new }
    ensures others { drop (length requests.now) replies.new ≡ drop (length requests.now) replies.old }
    ensures workspace { Lent workspace.old workspace.new }
{
    let places = plan.events() as usize;
    // By place: of what chunks and items of lent lists hold once they are written, a proof knows nothing.
    for (i, request) in requests.iter().enumerate() {
        let from = i * places;
        let timetable = &mut timetables[from..from + places];
        replies[i] = make_call(plan, request, timetable, workspace);
    }
}

// Sets the first 4,096 numbers to 0, where there are so many.
#[tactic(auto, using(crate::proofs::Wiping::wiped_long))]
fn wipe(workspace: &mut [u64])
    ensures { workspace.new ≡ wiped workspace.old }
{
    if workspace.len() >= 4096 {
        clear(&mut workspace[0..4096]);
    }
}

// Replays the calls on a new plan of this period and so many events, and hands back the reply to call `i` at place `i` of
// `replies`. What a find writes stands at the places of its call in `timetables`, one for each event: those of call `i` begin
// at `i` times the number of events. Range where the plan cannot be made, Short where there are fewer replies than calls, or
// fewer timetables; then nothing has changed. The workspace's first 4,096 numbers are 0 afterwards; where it has fewer, it is
// as it was, and each left and find is refused.
pub fn replay<B: Bank>(
    period: u8,
    events: u16,
    requests: &[Request<B>],
    replies: &mut [Reply],
    timetables: &mut [u8],
    workspace: &mut [u64],
) -> Result<(), Refusal>
    ensures answer { result ≡ reply (replay_refusal period events (length requests.now) (length replies.old) (length timetables.old)) tt }
    ensures run { Replayed (replay_refusal period events (length requests.now) (length replies.old) (length timetables.old)) period events (calls_of B.meaning events (length workspace.old) requests.now) replies.old replies.new timetables.old timetables.new workspace.old workspace.new }
{
    let mut plan = Plan::blank();
    plan.make(period, events)?;
    let count = requests.len();
    if replies.len() < count || timetables.len() / (events as usize) < count {
        return Err(Refusal::Short);
    }
    run(&mut plan, requests, replies, timetables, workspace);
    wipe(workspace);
    Ok(())
}
