//! Spans: what they mean, whether one holds, and their narrowing in word operations.
//!
//! The functions are for the bank of spans: each asks of its caller what that bank has tested.
#![tactic(auto)]

ghost use Rattle.std.specs.Prelude.{◌≡◌, ◌+◌, ◌<◌, true, false, length, ◌≢◌};
ghost use Rattle.relations.specs.ExactNarrowing.{of};
ghost use Rattle.spans.specs.Spans.{span_relation, to_left, Placed};

use minutes::Period;
use records::Span;

// Whether the span holds of these minutes.
pub fn span_holds(s: Span, period: Period, minutes: &[u8]) -> bool
    requires placed { Placed period.minutes s (length minutes.now) }
    requires from { of minutes.now s.from < period.minutes }
    requires to { of minutes.now s.to < period.minutes }
    ensures { result ≡ (span_relation period.minutes s).condition minutes.now }
{
    let from = minutes[s.from as usize - 1];
    let to = minutes[s.to as usize - 1];
    period.gap(s.lower, period.gap(from, to)) <= s.upper - s.lower
}

// The minutes of `set` that lie `on` to `on + width` minutes after one of `other`: the other's, turned on and widened.
fn left_beside(period: Period, other: u64, on: u8, width: u8, set: u64) -> u64
    requires on { on < period.minutes }
    requires width { width < period.minutes }
    ensures { result ≡ to_left period.minutes on (on + width) other set }
{
    let turned = period.turn(other & period.whole(), on);
    set & period.widen(turned, width)
}

// Narrows the sets of the span's two events, and says whether one changed.
pub fn span_narrow(s: Span, period: Period, family: &mut [u64]) -> bool
    requires { Placed period.minutes s (length family.old) }
    ensures after { family.new ≡ (span_relation period.minutes s).narrowing family.old }
    ensures other { result ≡ true → family.new ≢ family.old }
    ensures same { result ≡ false → family.new ≡ family.old }
{
    let i = s.from as usize - 1;
    let j = s.to as usize - 1;
    let from = family[i];
    let to = family[j];
    let width = s.upper - s.lower;
    let back = (2 * period.minutes - s.lower - width) % period.minutes;
    let first = left_beside(period, to, back, width, from);
    let second = left_beside(period, from, s.lower, width, to);
    family[i] = first;
    family[j] = second;
    first != from || second != to
}
