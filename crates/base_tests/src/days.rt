//! Days and months.

use days_core::{
    Day, age_on, day_of_text, days_in, first_of, last_of, month_of, month_of_text, plus_days,
    plus_months, text_of_day, text_of_month, years_before,
};
use std::alloc::Global;
use std::process::Abort;

fn day(rt: &impl Abort, text: &str) -> Day {
    day_of_text(text).expect(rt, "a day")
}

const NUMBERS: [(&str, u32); 5] = [
    ("1880-01-01", 0),
    ("1970-01-01", 32_872),
    ("2000-02-29", 43_888),
    ("2024-01-01", 52_595),
    ("2199-12-31", 116_877),
];

const NO_DAYS: [&str; 12] = [
    "1879-12-31",
    "2200-01-01",
    "2023-02-29",
    "2100-02-29",
    "2024-00-01",
    "2024-13-01",
    "2024-01-00",
    "2024-1-01",
    "2024/01/01",
    "2024-01-01 ",
    "+024-01-01",
    "",
];

#[test]
fn texts_name_the_days_of_the_calendar(rt: HostRuntime) {
    for (text, number) in &NUMBERS {
        assert!(rt; day(&rt, *text).number() == *number, "{text}");
    }
    for text in &NO_DAYS {
        assert!(rt; day_of_text(*text).is_err(), "{text}");
    }
}

const AGES: [(&str, &str, u32); 6] = [
    ("1953-06-01", "2024-01-01", 70),
    ("2006-01-01", "2024-01-01", 18),
    ("2006-01-01", "2023-12-31", 17),
    ("2004-02-29", "2022-02-28", 17),
    ("2004-02-29", "2022-03-01", 18),
    ("2024-01-01", "2024-01-01", 0),
];

#[test]
fn ages_change_on_the_birthday(rt: HostRuntime) {
    for (born, on, age) in &AGES {
        let (born, on) = (day(&rt, *born), day(&rt, *on));
        assert!(rt; born <= on);
        assert!(rt; age_on(born, on) == *age, "{age}");
    }
}

const YEARS_BEFORE: [(&str, u32, &str); 3] = [
    ("2024-02-29", 2, "2022-02-28"),
    ("2024-02-29", 4, "2020-02-29"),
    ("2024-03-31", 144, "1880-03-31"),
];

#[test]
fn days_move_by_the_calendar(rt: HostRuntime) {
    let moved = plus_days(day(&rt, "2024-02-28"), 2);
    assert!(rt; moved == Some(day(&rt, "2024-03-01")));
    for (from, years, before) in &YEARS_BEFORE {
        let moved = years_before(day(&rt, *from), *years);
        assert!(rt; moved == Some(day(&rt, *before)), "{before}");
    }
    assert!(rt; years_before(day(&rt, "2024-03-31"), 145).is_none());
}

/// A month, its first and its last day, and how many it has.
type MonthCase = (&'static str, &'static str, &'static str, u32);

const MONTHS: [MonthCase; 4] = [
    ("1880-01", "1880-01-01", "1880-01-31", 31),
    ("2024-02", "2024-02-01", "2024-02-29", 29),
    ("2100-02", "2100-02-01", "2100-02-28", 28),
    ("2199-12", "2199-12-01", "2199-12-31", 31),
];

#[test]
fn months_have_their_days_and_texts(rt: HostRuntime) {
    for case in &MONTHS {
        has_its_days_and_texts(&rt, rt.alloc(), *case);
    }
    let november = month_of_text("2023-11").expect(&rt, "a month");
    assert!(rt; plus_months(november, 3) == month_of_text("2024-02").ok());
    let last = month_of_text("2199-12").expect(&rt, "a month");
    assert!(rt; plus_months(last, 1).is_none());
}

fn has_its_days_and_texts(rt: &impl Abort, alloc: Global, case: MonthCase) {
    let (text, first, last, days) = case;
    let month = month_of_text(text).expect(rt, "a month");
    let last_day = day(rt, last);
    assert!(rt; first_of(month) == day(rt, first), "{text}");
    assert!(rt;
        last_of(month) == last_day && month_of(last_day) == month,
        "{text}"
    );
    assert!(rt; days_in(month) == days, "{text}");
    let written = text_of_month(alloc, month).expect(rt, "memory");
    assert!(rt; written.as_bytes() == text.as_bytes());
    let written = text_of_day(alloc, last_day).expect(rt, "memory");
    assert!(rt; written.as_bytes() == last.as_bytes());
}
