//! Texts and lists.

use plain_data::{Listed, SharedText, Text};
use std::alloc::Global;
use std::process::Abort;

fn text(rt: &impl Abort, alloc: Global, bytes: &[u8]) -> Text {
    Text::new(bytes.to_vec(alloc).expect(rt, "memory"))
}

fn listed(rt: &impl Abort, alloc: Global, rows: &[u32]) -> Listed<u32> {
    Listed::new(rows.to_vec(alloc).expect(rt, "memory"))
}

#[test]
fn gives_back_what_it_was_made_of(rt: HostRuntime) {
    let alloc = rt.alloc();
    let ada = text(&rt, alloc, b"Ada Reed");
    assert!(rt; ada == text(&rt, alloc, b"Ada Reed"));
    assert!(rt; ada != text(&rt, alloc, b"Ada"));
    assert!(rt; ada.as_bytes() == b"Ada Reed".as_slice());
    assert!(rt; ada.into_bytes().as_slice() == b"Ada Reed".as_slice());
    gives_back_its_rows(&rt, alloc);
}

fn gives_back_its_rows(rt: &impl Abort, alloc: Global) {
    let rows = listed(rt, alloc, &[3, 1, 2]);
    assert!(rt; rows == listed(rt, alloc, &[3, 1, 2]));
    assert!(rt; rows != listed(rt, alloc, &[1, 3, 2]));
    assert!(rt; rows.as_slice() == [3u32, 1, 2].as_slice());
    assert!(rt; rows.into_rows().as_slice() == [3u32, 1, 2].as_slice());
}

#[test]
fn copies_share_a_text(rt: HostRuntime) {
    let ada = b"Ada Reed".to_vec(rt.alloc()).expect(&rt, "memory");
    let ada = SharedText::new(ada).expect(&rt, "memory");
    let copy = ada.try_clone().expect(&rt, "few owners");
    assert!(rt; copy == ada);
    drop(ada);
    assert!(rt; copy.as_bytes() == b"Ada Reed".as_slice());
}
