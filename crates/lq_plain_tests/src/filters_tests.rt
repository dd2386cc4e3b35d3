//! Filters.
use lq_ast::{Filter, Query, Select};
use lq_filter::{Inner, PrepareFault, Prepared, RecordScan, Scan, prepare, prepare_inner_numbered};
use lq_parse::parse;
use lq_plain::PlainFault;
use std::alloc::{AllocError, Global};
use vl_row::{FieldList, Row, Text};

/// The moment at which filters are asked: 2024-05-01T10:00:00Z.
const NOW: i64 = 1_714_557_600_000_000_000;

const MINUTE: i64 = 60_000_000_000;

/// The number of the first pattern of a filter that is asked of records.
const FIRST: u32 = 3;

/// A filter, and how it is prepared.
#[derive(Drop)]
struct Asked<'q> {
    filter: &'q Filter,
    prepared: &'q Prepared,
    inner: &'q Inner,
    other: &'q Prepared,
}

/// Returns the number after those of the filter's patterns, and whether the filter holds for a row of each record, and
/// for the record. Where a pattern is refused, it returns the faults.
pub(crate) fn answer(
    alloc: Global,
    query: &Query,
    records: &[FieldList],
) -> Result<String, AllocError> {
    let filter = &query.filter;
    let mut next = FIRST;
    let inner = prepare_inner_numbered(alloc, filter, &mut next);
    match (prepare(alloc, query), inner) {
        (Ok(prepared), Ok(inner)) => {
            let other = everything(alloc)?;
            let asked = Asked {
                filter,
                prepared: &prepared,
                inner: &inner,
                other: &other,
            };
            let mut text = format!(in alloc; "{next}")?;
            asked.push_letters(alloc, records, &mut text)?;
            Ok(text)
        }
        (prepared, inner) => refused(alloc, filter, prepared.err(), inner.err()),
    }
}

/// Returns the query `*`, which has no selector.
fn everything(alloc: Global) -> Result<Prepared, AllocError> {
    let query = parse(alloc, "*").map_err(|_| AllocError)?;
    prepare(alloc, &query).map_err(|_| AllocError)
}

/// Returns why the query, its filter and the plain filter are refused.
fn refused(
    alloc: Global,
    filter: &Filter,
    query: Option<PrepareFault>,
    inner: Option<PrepareFault>,
) -> Result<String, AllocError> {
    let plain = lq_plain::record_holds(alloc, filter, &FieldList::new(alloc)).err();
    format!(in alloc; "{query:?} {inner:?} {plain:?}")
}

impl Asked<'_> {
    fn push_letters(
        &self,
        alloc: Global,
        records: &[FieldList],
        text: &mut String,
    ) -> Result<(), AllocError> {
        let mut rows = self.prepared.scan(alloc, NOW);
        let mut scan = self.inner.scan(alloc);
        let mut time = NOW;
        for record in records {
            let row = self.row_letter(alloc, &mut rows, time, record)?;
            let own = self.record_letter(alloc, &mut scan, record)?;
            write!(text, " {row}{own}")?;
            time = time.saturating_sub(MINUTE);
        }
        Ok(())
    }

    /// Returns the letter of a row of this time, or of that which its record says. A record without a field that is
    /// kept gives no row.
    fn row_letter(
        &self,
        alloc: Global,
        rows: &mut Scan<'_>,
        time: i64,
        record: &FieldList,
    ) -> Result<&'static str, AllocError> {
        let label = Text::try_of(alloc, "a")?;
        let time = record.get("_time").parse().unwrap_or(time);
        let Ok(row) = Row::try_new(alloc, time, &[label], record.try_copy(alloc)?) else {
            return Ok("-");
        };
        let shipped = rows.holds(&row)?;
        if !self.agrees(alloc, &row, shipped)? {
            return Ok("x");
        }
        Ok(letter(shipped, lq_plain::holds(alloc, NOW, self.filter, &row)))
    }

    /// Returns whether the filter holds for the row in a scan of its own. A selector says the same by the query, and by
    /// another query.
    fn agrees(&self, alloc: Global, row: &Row, shipped: bool) -> Result<bool, AllocError> {
        let is_same = self.prepared.holds(alloc, NOW, row)? == shipped;
        let Some((select, is_wanted)) = selector_of(self.filter) else {
            return Ok(is_same);
        };
        let by_query = self.prepared.selects(alloc, select, row.stream())?;
        let by_other = self.other.selects(alloc, select, row.stream())?;
        Ok(is_same && by_query == by_other && by_query == (shipped == is_wanted))
    }

    fn record_letter(
        &self,
        alloc: Global,
        scan: &mut RecordScan<'_>,
        record: &FieldList,
    ) -> Result<&'static str, AllocError> {
        let shipped = scan.holds(record)?;
        if self.inner.holds(alloc, record)? != shipped {
            return Ok("x");
        }
        Ok(letter(shipped, lq_plain::record_holds(alloc, self.filter, record)))
    }
}

/// Returns the selector that a filter is, or negates, and whether it is the selector.
fn selector_of(filter: &Filter) -> Option<(&Select, bool)> {
    match filter {
        Filter::Not(filter) => Some((select_of(filter)?, false)),
        _ => Some((select_of(filter)?, true)),
    }
}

fn select_of(filter: &Filter) -> Option<&Select> {
    match filter {
        Filter::Select(select) => Some(select),
        _ => None,
    }
}

/// Returns `1` where both say that the filter holds, `0` where both say that it does not, and else `x`.
fn letter(shipped: bool, plain: Result<bool, PlainFault>) -> &'static str {
    match (shipped, plain) {
        (true, Ok(true)) => "1",
        (false, Ok(false)) => "0",
        _ => "x",
    }
}
