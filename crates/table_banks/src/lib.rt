//! Banks over the caller's tables of spans and of journeys.
#![tactic(auto)]

pub mod journey_bank;
pub mod span_bank;
pub mod table_bank;
mod table_record;
mod tables;

pub use crate::journey_bank::JourneyBank;
pub use crate::span_bank::SpanBank;
