//! The tests of a table, and the highest event that it names.
ghost use Rattle.std.specs.Prelude.{◌≡◌};
ghost use Rattle.relations.specs.Tables.{good_events, highest};
ghost use Rattle.table_banks.specs.Verdicts.{table_verdict};

use crate::table_record::TableRecord;
use refusals::Refusal;

// Tests the first `count` records of the table: Short, then record by record Range and Event.
pub(crate) fn test_table<R: TableRecord>(
    table: &[R],
    count: usize,
    period: u8,
    most: u16,
) -> Result<(), Refusal>
    ensures { result ≡ table_verdict (R.ranged period) (λ r. good_events most (R.events r)) count table.now }
{
    if table.len() < count {
        return Err(Refusal::Short);
    }
    for record in &table[..count] {
        record.test(period, most)?;
    }
    Ok(())
}

// The highest event that one of the records names, or 0.
pub(crate) fn highest_event<R: TableRecord>(records: &[R]) -> u16
    ensures { result ≡ highest R.events records.now }
{
    records
        .iter()
        .fold(0, |most, record| most.max(record.top()))
}
