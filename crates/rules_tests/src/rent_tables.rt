//! Units, rents and limits.

ghost use Rattle.std.specs.Prelude.{◌≡◌, ◌<◌, ◌++◌, [], ◌∷◌, All};

use rent_table::{
    LimitRow, RentRow, RentTable, Unit, admission_limit, has_extremely_low_income, suits,
};
use sample_office::{day, limit_row, plan, rent_row, rent_table, text, unit};
use std::alloc::Global;
use std::process::Abort;

/// The group, the first day, the act and the contract rent of rents.
const RENT_ROWS: [(u32, &str, u32, u32); 5] = [
    (1, "2024-01-01", 3, 700),
    (1, "2024-01-01", 9, 710),
    (1, "2024-06-01", 12, 750),
    (2, "2024-02-01", 15, 900),
    (1, "2024-03-01", 20, 730),
];

const RENTS_ON: [(u32, &str, Option<u32>); 10] = [
    (1, "2023-12-31", None),
    (1, "2024-01-01", Some(710)),
    (1, "2024-02-29", Some(710)),
    (1, "2024-03-01", Some(730)),
    (1, "2024-05-31", Some(730)),
    (1, "2024-06-01", Some(750)),
    (1, "2199-12-31", Some(750)),
    (2, "2024-01-31", None),
    (2, "2024-06-01", Some(900)),
    (3, "2024-06-01", None),
];

#[test]
fn the_latest_day_and_of_one_day_the_latest_act_stands(rt: HostRuntime) {
    let rows = RENT_ROWS.map(|(group, from, act, rent)| rent_row(group, day(from), act, rent));
    let table = rent_table(rt.alloc(), &rows).expect(&rt, "a table");
    for (group, on, rent) in &RENTS_ON {
        assert!(rt; rent_on(&table, *group, *on) == *rent, "{group} on {on}");
    }
}

fn rent_on(table: &RentTable, group: u32, on: &str) -> Option<u32> {
    match table.rents_on(group, day(on)) {
        Some(rents) => Some(rents.contract_rent),
        None => None,
    }
}

/// Limits from a day on, the low ones as told.
fn limits(from: &str, act: u32, low: u32) -> LimitRow
    ensures { result.act ≡ act }
{
    let mut row = limit_row(day(from), act);
    row.low = [low; 12];
    row.very_low = [31_250; 12];
    row.extremely_low = [18_750; 12];
    row
}

fn add_limits(rt: &impl Abort, table: &mut RentTable, row: LimitRow)
    requires { All (λ earlier. earlier.act < row.act) table.old.limits }
    ensures { table.new.limits ≡ table.old.limits ++ row ∷ [] }
{
    table.reserve().expect(rt, "memory");
    table.push_limits(row);
}

const LIMITS_ON: [(&str, Option<u32>); 3] = [
    ("2022-12-31", None),
    ("2023-12-31", Some(40_000)),
    ("2024-01-01", Some(51_000)),
];

#[test]
fn the_latest_limits_stand(rt: HostRuntime) {
    let mut table = RentTable::new(rt.alloc()).expect(&rt, "memory");
    add_limits(&rt, &mut table, limits("2024-01-01", 3, 50_000));
    add_limits(&rt, &mut table, limits("2024-01-01", 9, 51_000));
    add_limits(&rt, &mut table, limits("2023-01-01", 12, 40_000));
    for (on, low) in &LIMITS_ON {
        assert!(rt; low_on(&table, *on) == *low, "{on}");
    }
}

/// The low limit for families of twelve.
fn low_on(table: &RentTable, on: &str) -> Option<u32> {
    match table.limits_on(day(on)) {
        Some(row) => Some(row.low[11]),
        None => None,
    }
}

/// A unit of two bedrooms.
fn unit_of_two(rt: &impl Abort, alloc: Global, number: u32, name: &str) -> Unit {
    let mut unit = unit(alloc, number, name).expect(rt, "memory");
    unit.bedrooms = 2;
    unit
}

fn add(rt: &impl Abort, table: &mut RentTable, added: Unit)
    ensures rents { table.new.rents ≡ table.old.rents }
    ensures limits { table.new.limits ≡ table.old.limits }
{
    table.reserve().expect(rt, "memory");
    assert!(rt; table.unit(added.number).is_none());
    assert!(rt; table.unit_named(&added.name).is_none());
    table.push_unit(added);
}

fn add_rents(rt: &impl Abort, table: &mut RentTable, row: RentRow)
    requires { All (λ earlier. earlier.act < row.act) table.old.rents }
    ensures { table.new.limits ≡ table.old.limits }
{
    table.reserve().expect(rt, "memory");
    table.push_rents(row);
}

#[test]
fn keeps_units_and_rows(rt: HostRuntime) {
    let alloc = rt.alloc();
    let mut table = RentTable::new(alloc).expect(&rt, "memory");
    add(&rt, &mut table, unit_of_two(&rt, alloc, 1, "12B"));
    add_rents(&rt, &mut table, rent_row(1, day("2024-01-01"), 3, 700));
    add_limits(&rt, &mut table, limits("2024-01-01", 3, 50_000));
    has_units_and_rows(&rt, alloc, &table);
}

fn has_units_and_rows(rt: &impl Abort, alloc: Global, table: &RentTable) {
    assert!(rt; bedrooms_of(table, 1) == Some(2));
    assert!(rt; table.unit(2).is_none());
    assert!(rt; number_of(rt, alloc, table, "12B") == Some(1));
    assert!(rt; number_of(rt, alloc, table, "12").is_none());
    assert!(rt; rent_on(table, 1, "2024-01-01") == Some(700));
    let row = rent_row(1, day("2024-01-01"), 3, 700);
    assert!(rt; table.rent_rows() == [row].as_slice());
    assert!(rt; low_on(table, "2024-01-01") == Some(50_000));
}

fn bedrooms_of(table: &RentTable, number: u32) -> Option<u32> {
    match table.unit(number) {
        Some(unit) => Some(unit.bedrooms),
        None => None,
    }
}

/// The number of the unit of that name.
fn number_of(rt: &impl Abort, alloc: Global, table: &RentTable, name: &str) -> Option<u32> {
    let name = text(alloc, name).expect(rt, "memory");
    table.unit_named(&name)
}

const UNITS: [(u32, &str); 5] = [(3, "M"), (9, "B"), (1, "Q"), (4, "BA"), (7, "A2")];

const NAMED: [(&str, Option<u32>); 8] = [
    ("M", Some(3)),
    ("B", Some(9)),
    ("Q", Some(1)),
    ("BA", Some(4)),
    ("A2", Some(7)),
    ("", None),
    ("C", None),
    ("Z", None),
];

const THERE: [(u32, bool); 8] = [
    (1, true),
    (3, true),
    (7, true),
    (9, true),
    (2, false),
    (10, false),
    (u32::MAX, false),
    (0, false),
];

#[test]
fn finds_each_unit_by_number_and_name(rt: HostRuntime) {
    let alloc = rt.alloc();
    let mut table = RentTable::new(alloc).expect(&rt, "memory");
    for (number, name) in &UNITS {
        add(&rt, &mut table, unit_of_two(&rt, alloc, *number, *name));
    }
    for (name, number) in &NAMED {
        assert!(rt; number_of(&rt, alloc, &table, *name) == *number, "{name}");
    }
    for (number, there) in &THERE {
        assert!(rt; table.unit(*number).is_some() == *there, "{number}");
    }
}

// A unit of two bedrooms is for 2 to 4 persons, by that plan's third bounds.
const FITTING: [(u32, bool); 5] = [(0, false), (1, false), (2, true), (4, true), (5, false)];

#[test]
fn a_unit_is_for_so_many_persons(rt: HostRuntime) {
    let plan = plan(rt.alloc(), &[]).expect(&rt, "memory");
    let unit = unit_of_two(&rt, rt.alloc(), 7, "12B");
    assert!(rt; unit.bedrooms <= 5);
    for (persons, fit) in &FITTING {
        assert!(rt; suits(&plan, &unit, *persons) == *fit, "{persons} persons");
    }
}

// The low limit holds for a contract before October 1981, the very low one for a later contract.
const LIMITS: [(bool, u32, u32); 4] = [
    (true, 1, 48_000),
    (true, 12, 48_000),
    (false, 1, 31_250),
    (false, 12, 44_100),
];

const EXTREMELY_LOW: [(u32, u32, bool); 4] = [
    (1, 18_750, true),
    (1, 18_751, false),
    (12, 18_751, true),
    (12, 26_501, false),
];

#[test]
fn a_limit_goes_by_contract_and_size(rt: HostRuntime) {
    let mut row = limits("2024-01-01", 3, 48_000);
    row.very_low[11] = 44_100;
    row.extremely_low[11] = 26_500;
    let mut plan = plan(rt.alloc(), &[]).expect(&rt, "memory");
    for (early, size, limit) in &LIMITS {
        assert!(rt; 1 <= *size && *size <= 12);
        plan.early = *early;
        assert!(rt;
            admission_limit(&plan, &row, *size) == *limit,
            "{early} {size}"
        );
    }
    for (size, annual, low) in &EXTREMELY_LOW {
        assert!(rt; 1 <= *size && *size <= 12);
        let found = has_extremely_low_income(&row, *size, *annual);
        assert!(rt; found == *low, "{size} {annual}");
    }
}
