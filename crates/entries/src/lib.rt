//! The heading and the record lines of an instance: their numbers, the tests that they have to pass, and what they enter.
#![tactic(auto)]

pub mod entry;
pub mod heading;
mod numerals;
mod tests;
