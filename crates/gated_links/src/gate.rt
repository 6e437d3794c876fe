//! A gate, at which one waits until another opens it.

use std::sync::atomic::{AtomicU64, Ordering};
use std::thread;
use std::time::{Clock, Duration};

/// For how many turns a gate is waited for.
const TURNS: u32 = 10_000;

/// A flag that is set once and for all, and that others may wait for.
#[derive(Drop)]
pub struct Gate {
    opened: AtomicU64,
}

impl Gate {
    /// A gate that is not open.
    pub fn new() -> Gate {
        Gate {
            opened: AtomicU64::new(0),
        }
    }

    /// Opens it.
    pub fn open(&self) {
        self.opened.store(1, Ordering::SeqCst);
    }

    /// Whether it is open.
    pub fn is_open(&self) -> bool {
        self.opened.load(Ordering::SeqCst) == 1
    }

    /// Waits until it is open, for 10,000 turns of a millisecond at most, and says whether it is.
    pub(crate) fn wait<C: Clock>(&self, clock: &C) -> bool {
        for _ in 0..TURNS {
            if self.is_open() {
                return true;
            }
            thread::sleep(clock, Duration::from_millis(1));
        }
        self.is_open()
    }
}
