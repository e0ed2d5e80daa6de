//! Calls to be replayed on a new plan, and what they reply.
use refusals::Refusal;
use search::Answer;

// What is asked of the plan.
#[derive(Clone, Copy, PartialEq, Eq, Debug)]
pub enum Action {
    // allow the event the minutes of the set only
    Allow { event: u16, set: u64 },
    // open a level
    Open,
    // shut the level opened last
    Shut,
    // what is left of the event's minutes, under the bank
    Left { event: u16 },
    // the earliest timetable from the floor on, under the bank
    Find { budget: u32 },
}

// A call: what it asks, the bank that a left or a find brings, and the floor that a find starts from. Other calls look at
// neither.
#[derive_where(Clone, Copy)]
pub struct Request<'b, B> {
    pub action: Action,
    pub bank: &'b B,
    pub floor: &'b [u8],
}

// What a call that is not refused has done.
#[derive(Clone, Copy, PartialEq, Eq, Debug)]
pub enum Done {
    // an allow, an open or a shut was accepted
    Accepted,
    // the minutes that are left
    Minutes(u64),
    // what a find answers; what it wrote stands in the timetables
    Answered(Answer),
}

// What a call replies: the first refusal that applies, or what it has done.
pub type Reply = Result<Done, Refusal>;
