//! Conditions and narrowings by plain enumeration, written apart from the banks.
use records::{Journey, Span};

// A record whose condition and narrowing are found by trying each minute.
pub trait Record {
    fn met(&self, period: u8, minutes: &[u8]) -> bool;

    fn narrow(&self, period: u8, family: &mut [u64; 6]);
}

// The place of an event in a list.
fn place(event: u16) -> Option<usize> {
    Some(usize::from(event.checked_sub(1)?))
}

// What the list has of an event, or 0.
fn of<T: Copy + Default>(list: &[T], event: u16) -> T {
    place(event)
        .and_then(|i| list.get(i))
        .copied()
        .unwrap_or_default()
}

// Writes what the list has of an event, where it has a place for it.
fn put(list: &mut [u64], event: u16, set: u64) {
    if let Some(i) = place(event)
        && let Some(kept) = list.get_mut(i)
    {
        *kept = set;
    }
}

// The set of one minute; of none where the minute is beyond 63.
fn only(m: u8) -> u64 {
    1u64.checked_shl(u32::from(m)).unwrap_or(0)
}

// Whether the set has the minute.
fn has(set: u64, m: u8) -> bool {
    set & only(m) != 0
}

// The set of those minutes that pass a test.
fn minutes_where<F: Fn(u8) -> bool>(period: u8, passes: F) -> u64
    requires { F.IsAlwaysCallable passes }
{
    (0..period)
        .filter(|m| passes(*m))
        .fold(0, |set, m| set | only(m))
}

// Whether some number of periods on, the second minute is within the span's bounds of the first.
fn span_met(s: &Span, period: u8, a: u8, b: u8) -> bool {
    let from = u16::from(a) + u16::from(s.lower);
    let to = u16::from(a) + u16::from(s.upper);
    (0..3).any(|turns: u8| {
        let later = u16::from(b) + u16::from(turns) * u16::from(period);
        from <= later && later <= to
    })
}

impl Record for Span {
    fn met(&self, period: u8, minutes: &[u8]) -> bool {
        span_met(self, period, of(minutes, self.from), of(minutes, self.to))
    }

    fn narrow(&self, period: u8, family: &mut [u64; 6]) {
        let from = of(family, self.from);
        let to = of(family, self.to);
        let to_some = |a| (0..period).any(|b| has(to, b) && span_met(self, period, a, b));
        let from_some = |b| (0..period).any(|a| has(from, a) && span_met(self, period, a, b));
        put(
            family,
            self.from,
            minutes_where(period, |a| has(from, a) && to_some(a)),
        );
        put(
            family,
            self.to,
            minutes_where(period, |b| has(to, b) && from_some(b)),
        );
    }
}

// How many minutes after `a` it is `b`, by counting.
fn leg(a: u8, b: u8, period: u8) -> u16 {
    let turned = |n: &u16| (u16::from(a) + n).checked_rem(u16::from(period));
    (0..u16::from(period))
        .find(|n| turned(n) == Some(u16::from(b)))
        .unwrap_or(0)
}

// The events of the journey.
fn chain_of(j: &Journey) -> &[u16] {
    let n = usize::from(j.count).min(6);
    &j.chain[..n]
}

// Whether minutes of the sets lead on through a chain, from the minute of the event before it if there is one, by legs
// that take at most `cap` minutes together.
fn leads(chain: &[u16], family: &[u64], period: u8, before: Option<u8>, cap: u16) -> bool {
    let Some((event, rest)) = chain.split_first() else {
        return true;
    };
    let set = of(family, *event);
    // No `any`: the call below goes down the chain again, which a closure would hide.
    for m in (0..period).filter(|m| has(set, *m)) {
        let taken = before.map_or(0, |a| leg(a, m, period));
        if let Some(left) = cap.checked_sub(taken)
            && leads(rest, family, period, Some(m), left)
        {
            return true;
        }
    }
    false
}

impl Record for Journey {
    fn met(&self, period: u8, minutes: &[u8]) -> bool {
        let chain = chain_of(self);
        let minute = |event: &u16| of(minutes, *event);
        let behind = chain.iter().skip(1);
        let legs = chain
            .iter()
            .zip(behind)
            .map(|(a, b)| leg(minute(a), minute(b), period));
        legs.fold(0, u16::saturating_add) <= self.cap
    }

    fn narrow(&self, period: u8, family: &mut [u64; 6]) {
        let chain = chain_of(self);
        let before = *family;
        for event in chain {
            let set = of(&before, *event);
            let leads_at = |m| {
                let mut held = before;
                put(&mut held, *event, only(m));
                leads(chain, &held, period, None, self.cap)
            };
            put(
                family,
                *event,
                minutes_where(period, |m| has(set, m) && leads_at(m)),
            );
        }
    }
}
