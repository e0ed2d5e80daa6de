//! The calls of a plan: what a list of them decides stands in specs/, and its laws here.
#![tactic(auto)]

ghost use Rattle.calls.specs.Laws.{LedgersRight, FamilyRight, ShutRestores, EitherOrder, AllowAgain};

// What lists of calls decide, in words: `ledger` lists the allows that were accepted and that no later shut took back,
// and the open levels; the allowed family is by those allows; and the laws of levels and allows.
pub fn laws_of_calls()
    ensures ledger { LedgersRight }
    ensures family { FamilyRight }
    ensures shut { ShutRestores }
    ensures order { EitherOrder }
    ensures again { AllowAgain }
{}
