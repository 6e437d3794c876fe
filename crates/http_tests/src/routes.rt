//! Routes.

use http_routes::{Routed, Routes};
use questions::Question;
use std::alloc::Global;
use std::process::Abort;

/// Where a method and a target lead, in few words.
fn told(rt: &impl Abort, alloc: Global, method: &str, target: &str) -> &'static str {
    let routes = Routes::new(alloc).expect(rt, "memory");
    match routes.lead(method, target) {
        Routed::Act => "act",
        Routed::Question(question) => told_question(question),
        Routed::NoRoute => "no route",
        Routed::NoMethod => "no method",
        Routed::BadPart(part) => part.name(),
    }
}

fn told_question(question: Question) -> &'static str {
    match question {
        Question::Household { .. } => "household",
        Question::Record { .. } => "record",
        Question::Next { .. } => "next",
        Question::Voucher { .. } => "voucher",
        Question::Paid { .. } => "paid",
        Question::Due { .. } => "due",
        Question::Targets { .. } => "targets",
    }
}

const TARGETS: [(&str, &str, &str); 25] = [
    ("POST", "/acts", "act"),
    ("GET", "/acts", "no method"),
    ("GET", "/acts/", "no route"),
    ("GET", "/households/1", "household"),
    ("HEAD", "/households/1", "no method"),
    ("GET", "/households/0001?x=/2", "household"),
    ("GET", "/households/4294967296", "{h}"),
    ("GET", "/households/4294967295", "household"),
    ("GET", "/households/+1", "{h}"),
    ("GET", "/households/", "no route"),
    ("GET", "households/1", "no route"),
    ("GET", "//households/1", "no route"),
    ("GET", "/households/1/records/2", "record"),
    ("GET", "/households/1/records/x", "{r}"),
    ("GET", "/households/x/records/y", "{h}"),
    ("GET", "/households/1/paid/2024-05", "paid"),
    ("GET", "/households/1/paid/2024-13", "{month}"),
    ("GET", "/units/1/next/2024-02-29", "next"),
    ("GET", "/units/u/next/2024-02-30", "{u}"),
    ("GET", "/vouchers/2024-06", "voucher"),
    ("GET", "/due/2024-02-30", "{day}"),
    ("POST", "/due/2024-01-01", "no method"),
    ("GET", "/targets/2024-01-01", "targets"),
    ("GET", "/nowhere", "no route"),
    ("GET", "*", "no route"),
];

#[test]
fn targets_lead_where_they_say(rt: HostRuntime) {
    for (method, target, wanted) in &TARGETS {
        assert!(rt; told(&rt, rt.alloc(), *method, *target) == *wanted);
    }
}

#[test]
fn numbers_are_those_of_the_target(rt: HostRuntime) {
    let routes = Routes::new(rt.alloc()).expect(&rt, "memory");
    match routes.lead("GET", "/households/007/records/2") {
        Routed::Question(Question::Record { household, target }) => {
            assert!(rt; household == 7);
            assert!(rt; target == 2);
        }
        _ => assert!(rt; false),
    }
}
