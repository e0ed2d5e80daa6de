//! The calls of a plan.
//!
//! Each promises two things: directly, which contents and which answer come; and, whatever list of calls the plan came
//! from, that it now is what that list followed by this call decides. A refused call changes nothing. The three clauses are
//! written out at each call, since one word for all of them would hide which refusal and which contents are meant.
ghost use Rattle.std.specs.Prelude.{◌≡◌, []};
ghost use Rattle.calls.specs.Calls.{open_level, shut_level, allow as allow_call, open_refusal, shut_refusal, unless_refused};
ghost use Rattle.calls.specs.Replies.{reply};
ghost use Rattle.plan.specs.Contents.{fresh, levels_in, make_refusal, allow_refused, allowing, opening, shutting};
ghost use Rattle.plan.specs.Decided.{Decided, Made, GoesOn};

use crate::Plan;
use crate::contents::Contents;
use minutes::Period;
use refusals::Refusal;

impl Plan {
    // The plan of period 2 and one event, as `make(2, 1)` gives it. A plan is some 18 KB, so one that may be refused is made
    // in place, and not returned.
    pub fn blank() -> Plan
        ensures plan { result.contents ≡ fresh 2 1 }
        ensures list { Decided result.contents [] }
    {
        Plan {
            contents: Contents::fresh(Period { minutes: 2 }, 1),
        }
    }

    // Makes the plan anew: every minute allowed, no level open. Range where the period is not 2 to 64 or the events are
    // not 1 to 256.
    pub fn make(&mut self, period: u8, events: u16) -> Result<(), Refusal>
        ensures answer { result ≡ reply (make_refusal period events) tt }
        ensures plan { self.new.contents ≡ unless_refused (make_refusal period events) (fresh period events) self.old.contents }
        ensures list { Made (make_refusal period events) self.old.contents self.new.contents }
    {
        if !(2..=64).contains(&period) || !(1..=256).contains(&events) {
            return Err(Refusal::Range);
        }
        self.contents = Contents::fresh(Period { minutes: period }, events);
        Ok(())
    }

    // Allows the event the minutes of the set only, of those that it has. Range where the set has a minute outside the
    // period, Event where there is no such event, Full where it would be entry 1,025.
    pub fn allow(&mut self, event: u16, set: u64) -> Result<(), Refusal>
        ensures answer { result ≡ reply (allow_refused self.old.contents event set) tt }
        ensures plan { self.new.contents ≡ unless_refused (allow_refused self.old.contents event set) (allowing event set self.old.contents) self.old.contents }
        ensures list { GoesOn self.old.contents (allow_call event set) self.new.contents result }
    {
        let period = Period {
            minutes: self.contents.period,
        };
        if set > period.whole() {
            return Err(Refusal::Range);
        }
        let place = self.place_of(event)?;
        self.contents.cut(place, set)
    }

    // Opens a level. Level where 16 are open.
    pub fn open(&mut self) -> Result<(), Refusal>
        ensures answer { result ≡ reply (open_refusal (levels_in self.old.contents)) tt }
        ensures plan { self.new.contents ≡ unless_refused (open_refusal (levels_in self.old.contents)) (opening self.old.contents) self.old.contents }
        ensures list { GoesOn self.old.contents open_level self.new.contents result }
    {
        let entries = self.entries();
        let marks = &mut self.contents.marks;
        marks.try_push(entries).map_err(|_| Refusal::Level)
    }

    // Shuts the level opened last: takes back every allow accepted since, and frees their entries. Level where none is open.
    pub fn shut(&mut self) -> Result<(), Refusal>
        ensures answer { result ≡ reply (shut_refusal (levels_in self.old.contents)) tt }
        ensures plan { self.new.contents ≡ unless_refused (shut_refusal (levels_in self.old.contents)) (shutting self.old.contents) self.old.contents }
        ensures list { GoesOn self.old.contents shut_level self.new.contents result }
    {
        let Some(mark) = self.contents.marks.pop() else {
            return Err(Refusal::Level);
        };
        self.contents.take_back(mark);
        Ok(())
    }
}
