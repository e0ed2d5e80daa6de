//! What a plan holds.
ghost use Rattle.std.specs.Prelude.{◌≡◌, ◌<◌, ◌≤◌};
ghost use Rattle.arrayvec.specs.ArrayVec.{array_vec_len};
ghost use Rattle.calls.specs.Calls.{unless_refused};
ghost use Rattle.calls.specs.Replies.{reply};
ghost use Rattle.plan.specs.Contents.{cut_refusal, cutting, fresh, taken_back};

use arrayvec::ArrayVec;
use minutes::Period;
use refusals::Refusal;

// An allow that took a minute away while a level was open: the place of its event, and the set that it cut.
#[derive(Clone, Copy, Default)]
pub struct Entry {
    pub place: u8,
    pub set: u64,
}

#[derive(Drop)]
pub struct Contents {
    // a number, as a bank's period is, which it is compared with
    pub period: u8,
    pub events: u16,
    // the allowed minutes, event by event: no list with its own length, which would be a second number of events
    pub allowed: [u64; 256],
    // for each open level, how many entries there were when it was opened
    pub marks: ArrayVec<usize, 16>,
    // the entries of the open levels
    pub trail: ArrayVec<Entry, 1024>,
}

impl Contents {
    // Every minute of the period allowed, and no level open.
    pub fn fresh(period: Period, events: u16) -> Contents
        ensures { result ≡ fresh period.minutes events }
    {
        Contents {
            period: period.minutes,
            events,
            allowed: [period.whole(); 256],
            marks: ArrayVec::new(),
            trail: ArrayVec::new(),
        }
    }

    // Leaves the event at the place only the minutes of the set. That is an entry where it takes a minute away while a level
    // is open. Full, with nothing changed, where it would be entry 1,025.
    pub fn cut(&mut self, place: usize, set: u64) -> Result<(), Refusal>
        requires { place < 256 }
        ensures answer { result ≡ reply (cut_refusal self.old place set) tt }
        ensures contents { self.new ≡ unless_refused (cut_refusal self.old place set) (cutting place set self.old) self.old }
    {
        let old = self.allowed[place];
        let left = old & set;
        if left != old && !self.marks.is_empty() {
            let entry = Entry {
                place: place as u8,
                set: old,
            };
            self.trail.try_push(entry).map_err(|_| Refusal::Full)?;
        }
        self.allowed[place] = left;
        Ok(())
    }

    // Gives back the sets that the entries above the mark cut, the latest first, and frees those entries.
    pub fn take_back(&mut self, mark: usize)
        requires { mark ≤ array_vec_len self.old.trail }
        ensures { self.new ≡ taken_back mark self.old }
    {
        for &Entry { place, set } in self.trail[mark..].iter().rev() {
            self.allowed[place as usize] = set;
        }
        self.trail.truncate(mark);
    }
}
