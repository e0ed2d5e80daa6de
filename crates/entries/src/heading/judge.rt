ghost use Rattle.std.specs.Prelude.{◌≡◌, ℕ, ◌-◌, ◌≤◌, true, [], ◌∷◌, Some, None, MatchResult};
ghost use Rattle.text.specs.declared.kind.Kind.TheVariants.{Journey as journey_kind};
ghost use Rattle.entries.specs.Noted.{at, span_tests, span_noted, journey_tests, journey_noted, well_counted_by};
ghost use Rattle.entries.specs.Verdicts.{Judged};

use crate::entry::Entry;
use crate::heading::Heading;
use crate::numerals::Numerals;
use crate::tests::{event_fault, form_fault, journey_fault, span_fault};
use records::{Journey, Span};
use refusals::{Misfit, Refusal};
use text::kind::Kind;

// The span that these numbers are, at this place, or the first refusal that applies.
fn span_entry(n: &Numerals, period: u8, events: u16, place: (usize, usize)) -> Result<Span, Misfit>
    requires { period ≤ 64 }
    ensures { MatchResult result (λ s. (span_tests period events n.now.values ≡ None) × (s ≡ span_noted n.now.values place)) (λ m. span_tests period events n.now.values ≡ Some (m.refusal, m.field)) }
{
    let [index, from, to, lower, upper, weight, _, _] = n.values;
    Refusal::Range.blame(span_fault(index, lower, upper, weight, period))?;
    Refusal::Event.blame(event_fault(&[from, to], events, 2))?;
    Ok(Span {
        index: index as u16,
        from: from as u16,
        to: to as u16,
        lower: lower as u8,
        upper: upper as u8,
        weight: weight as u16,
        place,
    })
}

// The journey that these numbers are, at this place, or the first refusal that applies.
fn journey_entry(n: &Numerals, events: u16, place: (usize, usize)) -> Result<Journey, Misfit>
    requires counted { well_counted_by journey_kind n.now.count ≡ true }
    requires zeros { (j : ℕ) → n.now.count ≤ j → at n.now.values j ≡ 0 }
    ensures { MatchResult result (λ j. (journey_tests events n.now.count n.now.values ≡ None) × (j ≡ journey_noted n.now.count n.now.values place)) (λ m. journey_tests events n.now.count n.now.values ≡ Some (m.refusal, m.field)) }
{
    // No `chain @ ..` that is mapped: an array that stands for a part of another is not covered where it is passed on.
    let [index, cap, a, b, c, d, e, f] = n.values;
    Refusal::Range.blame(journey_fault(index, cap))?;
    Refusal::Event.blame(event_fault(&n.values[2..n.count], events, 4))?;
    Ok(Journey {
        index: index as u16,
        cap: cap as u16,
        count: (n.count - 2) as u8,
        chain: [a as u16, b as u16, c as u16, d as u16, e as u16, f as u16],
        place,
    })
}

impl Heading {
    // What a record line under this heading enters, or the first refusal that applies, with the field at fault. That a
    // table is full is no concern of the line, and is not tested here.
    pub fn judge(&self, line: &[u8], place: (usize, usize)) -> Result<Entry, Misfit>
        ensures { Judged self.now.period self.now.events (record { bytes = line.now; place = place }) result }
    {
        let kind = Kind::of(line);
        let n = Numerals::of(kind, line);
        Refusal::Form.blame(form_fault(kind, &n))?;
        match kind {
            Kind::Heading => Err(Misfit::from(Refusal::Turn)),
            Kind::Span => span_entry(&n, self.period, self.events, place).map(Entry::Span),
            Kind::Journey => journey_entry(&n, self.events, place).map(Entry::Journey),
        }
    }
}
