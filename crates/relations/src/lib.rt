//! Relations over timetables: their meaning and laws, exact narrowing, and meanings that are joined or waived in part.
//!
//! Each function here does nothing: its contract is the theorem that its name states.
#![tactic(auto)]

ghost use Rattle.relations.specs.ExactNarrowing.{ExactIsLawful, ExactInWords};
ghost use Rattle.relations.specs.Joins.{JoinsAreLawful};
ghost use Rattle.relations.specs.Conditions.{SpanIsPeriodic, WorkedExamples};

// Exact narrowing keeps every law, whatever the condition and the named events.
pub fn exact_narrowing_is_lawful()
    ensures { ExactIsLawful }
{}

// Exact narrowing keeps a minute exactly where the named events have minutes, this one among them, that meet the condition.
pub fn exact_narrowing_in_words()
    ensures { ExactInWords }
{}

// Joined and waived meanings keep the laws that their parts keep.
pub fn joins_are_lawful()
    ensures { JoinsAreLawful }
{}

// A span is the constraint of periodic event scheduling.
pub fn span_is_periodic()
    ensures { SpanIsPeriodic }
{}

// Worked examples of the conditions.
pub fn worked_examples_stand()
    ensures { WorkedExamples }
{}
