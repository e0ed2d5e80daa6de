//! What a plan answers about itself.
ghost use Rattle.std.specs.Prelude.{◌≡◌, ◌-◌, ◌<◌, ◌≤◌, IfOk, length, if◌then◌else◌, Ok, Err};
ghost use Rattle.refusals.specs.declared.Refusal.TheVariants.{Event};
ghost use Rattle.minutes.specs.Minutes.{at};
ghost use Rattle.calls.specs.Calls.{no_event};
ghost use Rattle.plan.specs.Contents.{levels_in, entries_in, sets_of};

use crate::Plan;
use refusals::Refusal;

impl Plan {
    // The period.
    pub fn period(&self) -> u8
        ensures { result ≡ self.now.contents.period }
    {
        self.contents.period
    }

    // The number of events.
    pub fn events(&self) -> u16
        ensures { result ≡ self.now.contents.events }
    {
        self.contents.events
    }

    // The place of the event's set in the family. Event where there is no such event.
    pub fn place_of(&self, event: u16) -> Result<usize, Refusal>
        ensures answer { result ≡ (if no_event self.now.contents.events event then Err Event else Ok (event - 1)) }
        ensures place { IfOk result (λ place. place < self.now.contents.events) }
    {
        if !(1..=self.events()).contains(&event) {
            return Err(Refusal::Event);
        }
        Ok((event - 1) as usize)
    }

    // The minutes that the event is allowed. Event where there is no such event.
    pub fn allowed(&self, event: u16) -> Result<u64, Refusal>
        ensures { result ≡ (if no_event self.now.contents.events event then Err Event else Ok (at (sets_of self.now.contents) (event - 1))) }
    {
        let place = self.place_of(event)?;
        Ok(self.contents.allowed[place])
    }

    // The minutes that each event is allowed, from event 1 on.
    pub fn family(&self) -> &[u64]
        ensures sets { result.now ≡ sets_of self.now.contents }
        ensures len { length result.now ≡ self.now.contents.events }
    {
        let events = self.events() as usize;
        &self.contents.allowed[0..events]
    }

    // How many levels are open.
    pub fn levels(&self) -> usize
        ensures value { result ≡ levels_in self.now.contents }
        ensures most { result ≤ 16 }
    {
        self.contents.marks.len()
    }

    // How many entries the open levels have.
    pub fn entries(&self) -> usize
        ensures value { result ≡ entries_in self.now.contents }
        ensures most { result ≤ 1024 }
    {
        self.contents.trail.len()
    }
}
