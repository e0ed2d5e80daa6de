//! The bank of a table of records.
ghost use Rattle.std.specs.Prelude.{◌≡◌, ◌≤◌, true, [], map, take, Ok, Err, ⊤};
ghost use Rattle.refusals.specs.declared.Refusal.{Refusal};
ghost use Rattle.reading.specs.Views.{closed};
ghost use Rattle.relations.specs.ExactNarrowing.{exactly};
ghost use Rattle.relations.specs.Tables.{good_events, highest, sound};
ghost use Rattle.relations.proofs.Tabling.{table_lawful};
ghost use Rattle.table_banks.specs.Verdicts.{table_verdict};

use crate::table_record::TableRecord;
use crate::tables::{highest_event, test_table};
use bank::{Bank, all_below, in_limits};
use minutes::Period;
use reading::readings::ClosedReading;
use refusals::Refusal;
use std::alloc::AllocError;

// The records of a table, at a period: relation `k` is record `k`, and the reach is the highest event that one names.
pub struct TableBank<'t, R: TableRecord> {
    period: Period,
    reach: u16,
    records: &'t [R],
    ghost least: { 2 ≤ period.minutes },
    ghost tested: { sound (R.ranged period.minutes) R.events 256 records.now ≡ true },
    ghost reaches: { reach ≡ highest R.events records.now },
}

// By hand, since a derive gives neither at a type parameter beside a ghost field.
impl<'t, R: TableRecord> Clone for TableBank<'t, R> {
    ghost is_clone = { λ bank copy. copy ≡ bank };

    ghost is_infallible = { λ _. ⊤ };

    fn clone(&self) -> Result<TableBank<'t, R>, AllocError> {
        Ok(*self)
    }
}

impl<'t, R: TableRecord> Copy for TableBank<'t, R> {}

impl<'t, R: TableRecord> TableBank<'t, R> {
    // A bank of period 2 with no record, to be filled: a caller's bank takes one table after another in place.
    pub fn blank() -> TableBank<'t, R>
        ensures period { result.period.minutes ≡ 2 }
        ensures records { result.records.now ≡ [] }
    {
        TableBank {
            period: Period { minutes: 2 },
            reach: 0,
            records: &[],
        }
    }

    // Fills the bank with the records that a closed reading has entered in the table, at the reading's period. The table is
    // tested again: Short where it has fewer, then record by record Range and Event. A refusal leaves the bank as it was.
    pub fn fill(&mut self, reading: &ClosedReading, table: &'t [R]) -> Result<(), Refusal>
        ensures answer { result ≡ table_verdict (R.ranged (closed reading.now).period) (λ r. good_events (closed reading.now).events (R.events r)) (R.entered (closed reading.now)) table.now }
        ensures period { result ≡ Ok tt → self.new.period.minutes ≡ (closed reading.now).period }
        ensures records { result ≡ Ok tt → self.new.records.now ≡ take (R.entered (closed reading.now)) table.now }
        ensures refused { (f : Refusal) → result ≡ Err f → self.new ≡ self.old }
    {
        let period = Period {
            minutes: reading.period(),
        };
        let count = R::entered(reading);
        test_table(table, count, period.minutes, reading.events())?;
        let records = &table[..count];
        *self = TableBank {
            period,
            reach: highest_event(records),
            records,
        };
        Ok(())
    }
}

impl<'t, R: TableRecord> Bank for TableBank<'t, R> {
    ghost meaning = { λ s. record { period = s.period.minutes; reach = highest R.events s.records.now; relations = map (λ r. exactly s.period.minutes (R.events r) (R.met s.period.minutes r)) s.records.now } };

    fn period(&self) -> u8 {
        self.period.minutes
    }

    fn size(&self) -> usize {
        self.records.len().min(513)
    }

    fn reach(&self) -> usize {
        self.reach as usize
    }

    fn holds(&self, k: usize, minutes: &[u8]) -> bool {
        let reach = self.reach as usize;
        if !in_limits(self.records.len(), reach, k, minutes.len()) {
            return false;
        }
        if !all_below(&minutes[..reach], self.period.minutes) {
            return false;
        }
        self.records[k].holds(self.period, minutes)
    }

    fn narrow(&self, k: usize, family: &mut [u64]) -> bool {
        if !in_limits(self.records.len(), self.reach as usize, k, family.len()) {
            return false;
        }
        self.records[k].narrow(self.period, family)
    }

    ghost laws = { λ s. table_lawful (R.ranged s.period.minutes) R.events (R.met s.period.minutes) s.period.minutes 256 s.records.now (R.names s.period.minutes) s.tested };
}
