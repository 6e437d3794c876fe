//! An office that goes to another thread.

use crate::offices::let_go;
use office_core::Office;
use office_core::office_step::Capacity;
use plain_data::NoMemory;
use std::process::Abort;
use std::thread;

// An office goes to another thread, and comes back.
#[test]
fn goes_to_a_thread(rt: HostRuntime) {
    let few = Capacity { acts: 9, lines: 9 };
    let office = match Office::new(rt.alloc(), few) {
        Ok(office) => office,
        Err(NoMemory) => panic!(rt; "no memory"),
    };
    match thread::spawn(&rt, move || office) {
        Ok(child) => {
            let back = child.join(&rt);
            assert_eq!(rt; back.households(), 0);
            let_go(back);
        }
        Err(_) => panic!(rt; "no thread"),
    }
}
