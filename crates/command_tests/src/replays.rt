//! Acts done again over tables in which something is wrong.

use book_replay::{StoredRows, call_of};
use book_rows::{Batch, Table, Tables};
use days_core::Rents;
use office_step::Fault;
use plain_data::Listed;
use record_history::{Dates, Kind, Record};
use sample_office::{act_row, body, day, line, record};
use std::alloc::Global;
use std::test::Fail;
use voucher_core::Line;

fn certified(act: u32) -> Record {
    record(1, 1, act, Kind::MI, day("2024-01-31"))
}

// Acts 1 and 2 have rows in the tables, and act 3 has none.
fn tables(alloc: Global, records: &[Record], lines: &[Line]) -> Result<Tables, Fail> {
    let mut acts = Vec::new(alloc);
    for n in [1, 2, 3] {
        acts.push(act_row(n, 1, 50, body(alloc, "{}")?))?;
    }
    Ok(Tables {
        acts,
        records: records.to_vec(alloc)?,
        lines: lines.to_vec(alloc)?,
    })
}

/// The first row of the tables that no act made.
fn stray_of(alloc: Global, records: &[Record], lines: &[Line]) -> Result<Option<Fault>, Fail> {
    let tables = tables(alloc, records, lines)?;
    Ok(StoredRows::new(&tables).stray_row())
}

fn fault(table: Table, act: u32) -> Option<Fault> {
    Some(Fault { table, act })
}

#[test]
fn rows_in_order_are_no_strays(rt: HostRuntime) -> Result<(), Fail> {
    let records = [certified(1), certified(2)];
    let lines = [line(2, 1), line(2, 2)];
    assert_eq!(rt; stray_of(rt.alloc(), &records, &lines)?, None);
    Ok(())
}

// There are three acts, and none has the number 0.
#[test]
fn a_row_of_no_act_is_a_stray(rt: HostRuntime) -> Result<(), Fail> {
    let alloc = rt.alloc();
    let lines = [line(2, 1), line(4, 1)];
    let later = fault(Table::Lines, 4);
    assert_eq!(rt; stray_of(alloc, &[certified(1)], &lines)?, later);
    let none = fault(Table::Records, 0);
    assert_eq!(rt; stray_of(alloc, &[certified(0)], &lines)?, none);
    Ok(())
}

#[test]
fn a_row_after_a_later_one_is_a_stray(rt: HostRuntime) -> Result<(), Fail> {
    let lines = [line(3, 1), line(2, 1)];
    let stray = fault(Table::Lines, 2);
    assert_eq!(rt; stray_of(rt.alloc(), &[], &lines)?, stray);
    Ok(())
}

/// Where an act's rows, which are of no record, differ from those of the tables, which hold the lines.
fn difference_of(alloc: Global, given: &StoredRows, lines: &[Line]) -> Result<Option<Fault>, Fail> {
    let row = act_row(2, 1, 50, body(alloc, "{}")?);
    let rows = Batch {
        act: act_row(2, 1, 50, body(alloc, "{}")?),
        made: None,
        lines: Listed::new(lines.to_vec(alloc)?),
    };
    Ok(given.difference(&row, Some(&rows)))
}

#[test]
fn lines_are_found_where_they_stand_in_order(rt: HostRuntime) -> Result<(), Fail> {
    let alloc = rt.alloc();
    let lines = [line(2, 1), line(2, 2), line(3, 1)];
    let tables = tables(alloc, &[], &lines)?;
    let given = StoredRows::new(&tables);
    for (count, differs) in [
        (1, fault(Table::Lines, 2)),
        (2, None),
        (3, fault(Table::Lines, 2)),
    ] {
        let found = difference_of(alloc, &given, &lines[..count])?;
        assert_eq!(rt; found, differs, "{count} lines");
    }
    Ok(())
}

// The second act's lines stand on both sides of the third's.
#[test]
fn lines_are_found_where_they_stand_out_of_order(rt: HostRuntime) -> Result<(), Fail> {
    let alloc = rt.alloc();
    let own = [line(2, 1), line(2, 2)];
    let tables = tables(alloc, &[], &[line(2, 1), line(3, 1), line(2, 2)])?;
    let given = StoredRows::new(&tables);
    for (count, differs) in [(1, fault(Table::Lines, 2)), (2, None)] {
        let found = difference_of(alloc, &given, &own[..count])?;
        assert_eq!(rt; found, differs, "{count} lines");
    }
    Ok(())
}

#[test]
fn an_act_differs_before_its_record(rt: HostRuntime) -> Result<(), Fail> {
    let alloc = rt.alloc();
    let tables = tables(alloc, &[certified(1)], &[])?;
    let given = StoredRows::new(&tables);
    let row = act_row(1, 1, 50, body(alloc, "{}")?);
    let rows = Batch {
        act: act_row(1, 1, 50, body(alloc, "{}")?),
        made: None,
        lines: Listed::new(Vec::new(alloc)),
    };
    let record = fault(Table::Records, 1);
    let act = fault(Table::Acts, 1);
    assert_eq!(rt; given.difference(&row, None), act);
    assert_eq!(rt; given.difference(&row, Some(&rows)), record);
    let other = act_row(1, 2, 50, body(alloc, "{}")?);
    assert_eq!(rt; given.difference(&other, Some(&rows)), act);
    Ok(())
}

#[test]
fn a_row_is_of_a_call_or_of_none(rt: HostRuntime) -> Result<(), Fail> {
    let alloc = rt.alloc();
    for (clerk, text, is_call) in [
        (1, "{'kind':'close','month':'2024-05'}", true),
        (0, "{'kind':'close','month':'2024-05'}", false),
        (10_000, "{'kind':'close','month':'2024-05'}", false),
        (1, "{'month':'2024-05','kind':'close'}", false),
        (1, "{}", false),
    ] {
        let found = has_call(alloc, clerk, text)?;
        assert_eq!(rt; found, is_call, "{clerk} {text}");
    }
    Ok(())
}

fn has_call(alloc: Global, clerk: u32, text: &str) -> Result<bool, Fail> {
    let row = act_row(3, clerk, 50, body(alloc, text)?);
    match call_of(alloc, &row)? {
        Some(call) => {
            call.let_go();
            Ok(true)
        }
        None => Ok(false),
    }
}
