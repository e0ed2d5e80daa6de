//! The search for the earliest timetable: what it answers, and what is true of its answers.
#![tactic(auto)]

ghost use Rattle.search.specs.Theorems.{SomeWay, AlwaysAnswers, OneAnswer, AnyWay, FloorCut, SameAnswers, Resuming, EarliestOrNoneHolds, TheNumberHolds};

// What a find answers, each with its number: the count of dead ends that it passed.
#[derive(Clone, Copy, PartialEq, Eq, Debug)]
pub enum Answer {
    // the earliest timetable from the floor on was written
    Found(u32),
    // there is none
    Nothing(u32),
    // there are more dead ends than the budget, and the floor to go on from was written
    Spent(u32),
}

// What is true of every search whose bank keeps its laws: there is a way of narrowing; there is an answer, and one only; it
// depends neither on the way of narrowing, nor on what a floor has behind its minutes, nor on which bank of the same meaning
// is asked; a search that is resumed adds up; and an answer is the earliest or none, with the search's number.
pub fn theory_of_search()
    ensures way { SomeWay }
    ensures always { AlwaysAnswers }
    ensures one { OneAnswer }
    ensures any { AnyWay }
    ensures floor { FloorCut }
    ensures same { SameAnswers }
    ensures resuming { Resuming }
    ensures earliest { EarliestOrNoneHolds }
    ensures number { TheNumberHolds }
{}
