//! Servers whose accepts, sinks and keepers fail.

use crate::serving::{ends, has_given_back, links, serve, small_office};
use book_rows::Table;
use keeper_core::{DamagedKeeper, MemoryKeeper, PlannedKeeper};
use sample_office::{PLAN, post};

const ASK: &str = "GET /households/1 HTTP/1.1\r\n\r\n";

// The link that was left is served by the next call.
#[test]
fn a_failed_accept_ends_a_server(rt: HostRuntime) {
    let alloc = rt.alloc();
    let keeper = small_office(&rt, alloc);
    let two = links(&rt, alloc, &[ASK, ASK], &[1], 4_096);
    let told = serve(&rt, alloc, two, keeper, 40);
    assert!(rt; told.is(3, ""));
    assert!(rt; has_given_back(&told.links, 1));
    assert!(rt; ends(&rt, alloc, &told.links, 0, "'newest':1}"));
    let told = serve(&rt, alloc, told.links, told.keeper, 40);
    assert!(rt; told.is(0, "book 4\n"));
    assert!(rt; has_given_back(&told.links, 2));
    assert!(rt; ends(&rt, alloc, &told.links, 1, "'newest':1}"));
}

// The links are served all the same.
#[test]
fn a_full_sink_ends_a_server(rt: HostRuntime) {
    let alloc = rt.alloc();
    let keeper = small_office(&rt, alloc);
    let one = links(&rt, alloc, &[ASK], &[], 4_096);
    let told = serve(&rt, alloc, one, keeper, 6);
    assert!(rt; told.is(4, "book 4"));
    assert!(rt; has_given_back(&told.links, 1));
}

// What the keeper doesn't keep is refused on its link alone.
#[test]
fn a_failed_commit_ends_no_server(rt: HostRuntime) {
    let alloc = rt.alloc();
    let failing = [1].to_vec(alloc).expect(&rt, "memory");
    let keeper = PlannedKeeper::new(alloc, failing);
    let plan = post(alloc, 1, PLAN).expect(&rt, "memory");
    let two = links(&rt, alloc, &[plan.as_str(), plan.as_str()], &[], 4_096);
    let told = serve(&rt, alloc, two, keeper, 40);
    assert!(rt; told.is(0, "book 1\n"));
    let refused = "{'refused':{'kind':'Store'}}";
    assert!(rt; ends(&rt, alloc, &told.links, 0, refused));
    let done = "{'act':1,'day':'2024-01-02','made':null}";
    assert!(rt; ends(&rt, alloc, &told.links, 1, done));
}

// Where no book is opened no link is taken.
#[test]
fn a_failed_load_takes_no_link(rt: HostRuntime) {
    let alloc = rt.alloc();
    let failing = [0].to_vec(alloc).expect(&rt, "memory");
    let keeper = PlannedKeeper::new(alloc, failing);
    let one = links(&rt, alloc, &[ASK], &[], 4_096);
    let told = serve(&rt, alloc, one, keeper, 40);
    assert!(rt; told.is(5, ""));
    assert!(rt; has_given_back(&told.links, 0));
    let told = serve(&rt, alloc, told.links, told.keeper, 40);
    assert!(rt; told.is(0, "book 0\n"));
    assert!(rt; has_given_back(&told.links, 1));
}

#[test]
fn a_bad_book_takes_no_link(rt: HostRuntime) {
    let alloc = rt.alloc();
    let damaged = DamagedKeeper::new(Table::Records, 3);
    let one = links(&rt, alloc, &[ASK], &[], 4_096);
    let told = serve(&rt, alloc, one, damaged, 40);
    assert!(rt; told.is(6, "bad book: records 3\n"));
    assert!(rt; has_given_back(&told.links, 0));
    let mut tables = small_office(&rt, alloc).into_tables();
    if let Some(act) = tables.acts.first_mut() {
        act.n = 2;
    }
    let told = serve(&rt, alloc, told.links, MemoryKeeper::with(tables), 40);
    assert!(rt; told.is(6, "bad book: acts 2\n"));
    assert!(rt; has_given_back(&told.links, 0));
}
