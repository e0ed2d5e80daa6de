//! A bank with no relation.
ghost use Rattle.worked_runs.specs.Free.{free, free_lawful};

use bank::Bank;

// Of this period, with no relation: every timetable will do.
#[derive(Clone, Copy)]
pub struct Free {
    pub period: u8,
}

impl Bank for Free {
    ghost meaning = { free };

    fn period(&self) -> u8 {
        self.period
    }

    fn size(&self) -> usize {
        0
    }

    fn reach(&self) -> usize {
        0
    }

    fn holds(&self, _k: usize, _minutes: &[u8]) -> bool {
        false
    }

    fn narrow(&self, _k: usize, _family: &mut [u64]) -> bool {
        false
    }

    ghost laws = { free_lawful };
}
