//! The bank of a table of spans.
use crate::table_bank::TableBank;
use records::Span;

// Relation `k` is span `k`.
pub type SpanBank<'t> = TableBank<'t, Span>;
