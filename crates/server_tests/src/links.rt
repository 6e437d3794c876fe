//! Links that are served on one book.

use crate::serving::{ends, has_given_back, links, serve, serve_by, small_office};
use sample_office::post;

/// The household has less income: it is certified anew from February on.
const INTERIM: &str =
    "{'done':'2024-01-02','event':'2024-01-01','facts':FACTS,'from':'2024-02-01','household':1,'kind':'interim','notice':'2024-01-01','seen':1}";

const ASK: &str = "GET /households/1 HTTP/1.1\r\n\r\n";

// The second link sees what the first one posted.
#[test]
fn links_are_served_on_one_book(rt: HostRuntime) {
    let alloc = rt.alloc();
    let keeper = small_office(&rt, alloc);
    let interim = post(alloc, 5, INTERIM).expect(&rt, "memory");
    let two = links(&rt, alloc, &[interim.as_str(), ASK], &[], 4_096);
    let told = serve(&rt, alloc, two, keeper, 40);
    assert!(rt; told.is(0, "book 5\n"));
    assert!(rt; has_given_back(&told.links, 2));
    let made = "'household':1,'record':2,'reimbursement':0,'tenant_rent':152,'ttp':212}}";
    assert!(rt; ends(&rt, alloc, &told.links, 0, made));
    let seen = "book: 5\r\ncontent-length: 57\r\ncontent-type: application/json\r\n\r\n\
        {'household':1,'live':[1,2],'name':'Ada Reed','newest':2}";
    assert!(rt; ends(&rt, alloc, &told.links, 1, seen));
    assert!(rt; told.keeper.tables().acts.len() == 5);
}

// A link that is hung up inside a message, one that sends no message, and one without room for a response are given back,
// and the next one is served.
#[test]
fn each_end_of_a_session_goes_on(rt: HostRuntime) {
    let alloc = rt.alloc();
    let keeper = small_office(&rt, alloc);
    let three = links(
        &rt,
        alloc,
        &["GET /house", "no head\r\n\r\n", ASK],
        &[],
        4_096,
    );
    let told = serve(&rt, alloc, three, keeper, 40);
    assert!(rt; told.is(0, "book 4\n"));
    assert!(rt; has_given_back(&told.links, 3));
    assert!(rt; ends(&rt, alloc, &told.links, 1, "{'refused':{'kind':'BadHead'}}"));
    assert!(rt; ends(&rt, alloc, &told.links, 2, "'newest':1}"));
    let full = links(&rt, alloc, &[ASK, ASK], &[], 0);
    let told = serve(&rt, alloc, full, told.keeper, 40);
    assert!(rt; told.is(0, "book 4\n"));
    assert!(rt; has_given_back(&told.links, 2));
}

#[test]
fn no_links_are_served(rt: HostRuntime) {
    let alloc = rt.alloc();
    let keeper = small_office(&rt, alloc);
    let none = links(&rt, alloc, &[], &[], 40);
    assert!(rt; serve(&rt, alloc, none, keeper, 40).is(0, "book 4\n"));
}

// However many workers there are, each link is served and given back, and the act that one of them posts is in the book.
#[test]
fn several_workers_serve_each_link(rt: HostRuntime) {
    let alloc = rt.alloc();
    for workers in [2, 8, 32] {
        let keeper = small_office(&rt, alloc);
        let interim = post(alloc, 5, INTERIM).expect(&rt, "memory");
        let some = links(
            &rt,
            alloc,
            &[ASK, interim.as_str(), ASK, "GET /house", ASK],
            &[],
            4_096,
        );
        let told = serve_by(&rt, alloc, workers, some, keeper, 40);
        assert!(rt; told.is(0, "book 5\n"));
        assert!(rt; has_given_back(&told.links, 5));
        assert!(rt; told.keeper.tables().acts.len() == 5);
    }
}
