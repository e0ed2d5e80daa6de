//! Minute sets, families and timetables, and the leaf functions on minute sets.
#![tactic(auto)]

ghost use Rattle.std.specs.Prelude.{◌≡◌, ◌+◌, ◌-◌, ◌/◌, ◌%◌, ◌^◌, ◌<◌, ◌≤◌, ◌==◌, ◌↔◌, IsSome, IfSome};
ghost use Rattle.minutes.specs.Differences.{gap};
ghost use Rattle.minutes.specs.Turns.{Turned, Widened};

// Whether the set has minute `m`.
pub fn has(set: u64, m: u8) -> bool
    requires { m < 64 }
    ensures { result ≡ (set / 2 ^ m % 2 == 1) }
{
    (set >> m) % 2 == 1
}

// A period that a minute set can hold: 1 to 64 minutes.
#[derive(Clone, Copy)]
pub struct Period {
    pub minutes: u8,
    pub ghost some: { 1 ≤ minutes },
    pub ghost most: { minutes ≤ 64 },
}

impl Period {
    // The period of so many minutes, if a set can hold them.
    pub fn new(minutes: u8) -> Option<Period>
        ensures made { IfSome result (λ p. p.minutes ≡ minutes) }
        ensures when { IsSome result ↔ (1 ≤ minutes) × (minutes ≤ 64) }
    {
        if (1..=64).contains(&minutes) {
            Some(Period { minutes })
        } else {
            None
        }
    }

    // The set of all its minutes.
    pub fn whole(self) -> u64
        ensures { result ≡ 2 ^ self.minutes - 1 }
    {
        u64::MAX >> (64 - self.minutes)
    }

    // From minute `a` on to minute `b`, round the period.
    pub fn gap(self, a: u8, b: u8) -> u8
        requires a { a < self.minutes }
        requires b { b < self.minutes }
        ensures is { result ≡ gap self.minutes a b }
        ensures below { result < self.minutes }
    {
        if a <= b { b - a } else { b + self.minutes - a }
    }

    // The set turned on by `by` minutes round the period.
    pub fn turn(self, set: u64, by: u8) -> u64
        requires by { by < self.minutes }
        requires set { set < 2 ^ self.minutes }
        ensures { Turned self.minutes by set result }
    {
        if by == 0 {
            return set;
        }
        let back = self.minutes - by;
        let low = set & ((1u64 << back) - 1);
        (low << by) | (set >> back)
    }

    // The set together with itself turned on by each number of minutes up to `width`, by doubling: no range counts its steps.
    pub fn widen(self, set: u64, width: u8) -> u64
        requires width { width < self.minutes }
        requires set { set < 2 ^ self.minutes }
        ensures { Widened self.minutes (width + 1) set result }
    {
        let mut wide = set;
        let mut done: u8 = 0;
        while done < width {
            let step = (done + 1).min(width - done);
            wide |= self.turn(wide, step);
            done += step;
        }
        wide
    }
}
