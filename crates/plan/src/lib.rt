//! The plan: a period, events, the minutes that each may have, and levels that can be opened and shut again.
#![tactic(auto)]

ghost use Rattle.std.specs.Prelude.{◌^◌, ◌<◌, ◌≤◌, ◌++◌, ◌∷◌, [], All};
ghost use Rattle.std.specs.List.Sorted.{IsNonDecreasing};
ghost use Rattle.plan.specs.Contents.{entries_in};

use contents::Contents;

pub mod changes;
mod contents;
pub mod questions;

// A plan is made by `blank` and `make`. The shape of its contents: its numbers have their ranges, no set has a minute
// outside the period, and no mark is above the next one or the number of entries.
#[derive(Drop)]
pub struct Plan {
    contents: Contents,
    ghost least: { 2 ≤ contents.period },
    ghost most: { contents.period ≤ 64 },
    ghost some: { 1 ≤ contents.events },
    ghost events: { contents.events ≤ 256 },
    ghost sets: { All (λ set. set < 2 ^ contents.period) contents.allowed },
    ghost cuts: { All (λ entry. entry.set < 2 ^ contents.period) contents.trail.items },
    ghost marks: { IsNonDecreasing (contents.marks.items ++ entries_in contents ∷ []) },
}
