//! The index.

use row_index::RowIndex;

const PLACES: [(u64, Option<usize>); 8] = [
    (10, Some(4)),
    (20, Some(1)),
    (50, Some(3)),
    (70, Some(0)),
    (0, None),
    (15, None),
    (60, None),
    (71, None),
];

const KEYS: [u64; 5] = [70, 20, 70, 50, 10];

#[test]
fn finds_the_first_row_of_a_key(rt: HostRuntime) {
    let mut index = RowIndex::new(rt.alloc());
    for place in 0..KEYS.len() {
        index.reserve().expect(&rt, "memory");
        index.insert(KEYS[place], place);
    }
    for (key, place) in &PLACES {
        assert!(rt; index.find(*key) == *place, "{key}");
    }
}
