//! A file and its log in memory that stop at a call, for tests, and come back with what was synced and a part of the rest.
//!
//! Nothing here has a contract of its own, so a test sees disks as they are, and not by the clauses of a disk.
#![tactic(auto)]

mod torn;

use sqlite_disk::{Disk, Files, Fuse};
use std::alloc::{AllocError, Global};
pub use torn::{Kept, Torn};

/// A file in memory and its log, each of which is frozen after so many calls.
pub type Disks = Files<Fuse<Torn>>;

/// An empty file and an empty log, which are frozen after so many calls each. Where they mix, SQLite syncs once for most
/// commits, as over a real file, and else twice.
pub fn new_disks(alloc: Global, are_mixing: bool, db: u64, log: u64) -> Result<Disks, AllocError> {
    Ok(Files {
        log: Fuse::new(Torn::new(&[], alloc, are_mixing)?, log),
        db: Fuse::new(Torn::new(&[], alloc, are_mixing)?, db),
    })
}

/// What comes back after the machine stopped, with what was synced and that part of the rest. Nothing is frozen.
pub fn after_stop(disks: &Disks, alloc: Global, kept: Kept) -> Result<Disks, AllocError> {
    Ok(Files {
        log: Fuse::new(disks.log.inner().after_stop(alloc, kept)?, u64::MAX),
        db: Fuse::new(disks.db.inner().after_stop(alloc, kept)?, u64::MAX),
    })
}

/// Whether either is frozen. Each that isn't has one call less from then on.
pub fn are_frozen(disks: &mut Disks) -> bool {
    is_frozen(&mut disks.log) || is_frozen(&mut disks.db)
}

fn is_frozen(disk: &mut Fuse<Torn>) -> bool {
    !disk.may_be_used() || disk.len().is_err()
}
