//! The text of an instance, as bytes: its lines with their places, their fields, and the numbers that these write.
#![tactic(auto)]

pub mod fields;
pub mod kind;
pub mod lines;
pub mod pieces;
