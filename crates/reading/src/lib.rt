//! Reading an instance: begin takes the heading, take one record line after another, and close ends it.
#![tactic(auto)]

mod places;
pub mod readings;
mod tally;
