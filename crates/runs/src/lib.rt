//! Lists of calls on a new plan, and the law over them.
#![tactic(auto)]

pub mod replays;
pub mod requests;
