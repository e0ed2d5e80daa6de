//! Narrowing to rest: what a family comes to when every relation has narrowed it until none does so any more.
#![tactic(auto)]

ghost use Rattle.rest.specs.Theory.{OneRest, AnyOrder, SomeOrder, NoneLost, SinglesMeet, RestAgain, RestGrows};

// The theory of rests, for every meaning that keeps its laws.
pub fn theory_of_rest()
    ensures one { OneRest }
    ensures order { AnyOrder }
    ensures exists { SomeOrder }
    ensures lies { NoneLost }
    ensures singles { SinglesMeet }
    ensures again { RestAgain }
    ensures grows { RestGrows }
{}
