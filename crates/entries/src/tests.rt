//! The tests of a line's numbers, each with the field at fault as its answer.
ghost use Rattle.std.specs.Prelude.{◌≡◌, ℕ, ◌+◌, ◌^◌, ◌<◌, ◌≤◌, true, not, ◌&&◌, List, [], length, IfNone, slice_index};
ghost use Rattle.text.specs.Fields.{kind_of};
ghost use Rattle.entries.specs.Form.{values, first_numeral, form_fault as form_of};
ghost use Rattle.entries.specs.Tests.{from_to, heading_range, span_range, journey_range, first_wrong, named as stands};
ghost use Rattle.entries.specs.Noted.{Noted, well_counted_by, RangedHeading, RangedSpan, RangedJourney};

use crate::numerals::Numerals;
use text::kind::Kind;

// Whether a line of the kind has so many numbers.
fn well_counted(kind: Kind, count: usize) -> bool
    ensures { result ≡ well_counted_by kind count }
{
    match kind {
        Kind::Heading => count == 2,
        Kind::Span => count == 6,
        Kind::Journey => (4..=8).contains(&count),
    }
}

// The field for which a line of the kind is not well formed: 0 where it has a wrong number of fields.
pub fn form_fault(kind: Kind, n: &Numerals) -> Option<usize>
    ensures fault { (line : List ℕ) → kind ≡ kind_of line → Noted (first_numeral kind) (values line) n.now → result ≡ form_of line }
    ensures counted { IfNone result (well_counted_by kind n.now.count ≡ true) }
{
    if well_counted(kind, n.count) {
        n.bad
    } else {
        Some(0)
    }
}

// The field of a heading that is outside its range.
pub fn heading_fault(period: u32, events: u32) -> Option<usize>
    ensures fault { result ≡ heading_range period events }
    ensures ranged { IfNone result (RangedHeading period events) }
{
    if !(2..=64).contains(&period) {
        return Some(2);
    }
    if !(1..=256).contains(&events) {
        return Some(3);
    }
    None
}

// The field of a span, other than an event, that is outside its range.
pub fn span_fault(index: u32, lower: u32, upper: u32, weight: u32, period: u8) -> Option<usize>
    ensures fault { result ≡ span_range period index lower upper weight }
    ensures ranged { IfNone result (RangedSpan period index lower upper weight) }
{
    if !(1..=65_535).contains(&index) {
        return Some(1);
    }
    let period = u32::from(period);
    if lower >= period {
        return Some(4);
    }
    if !(lower..lower + period).contains(&upper) {
        return Some(5);
    }
    if weight > 65_535 {
        return Some(6);
    }
    None
}

// The field of a journey, other than an event, that is outside its range.
pub fn journey_fault(index: u32, cap: u32) -> Option<usize>
    ensures fault { result ≡ journey_range index cap }
    ensures ranged { IfNone result (RangedJourney index cap) }
{
    if !(1..=65_535).contains(&index) {
        return Some(2);
    }
    if cap > 315 {
        return Some(3);
    }
    None
}

// Whether an event may stand behind those before it: 1 to `most`, and none of them.
fn right(event: u32, most: u16, before: &[u32]) -> bool
    ensures { result ≡ (from_to 1 most event && not (stands event before.now)) }
{
    (1..=u32::from(most)).contains(&event) && !before.contains(&event)
}

// The field of the first event that may not stand where it does, the first of them being field `first`.
pub fn event_fault(events: &[u32], most: u16, first: usize) -> Option<usize>
    requires { first ≤ 4 }
    ensures fault { result ≡ first_wrong most [] first events.now }
    ensures ranged { IfNone result ((i : ℕ) → i < length events.now → slice_index events.now i ≤ most) }
{
    let wrong = (0..events.len()).find(|i| !right(events[*i], most, &events[..*i]))?;
    Some(first + wrong)
}
