//! A book's file opened again after a stop.
//!
//! A stop leaves of the two files what their disks may leave at that moment. What is said here holds over any disk, while it
//! returns what was written.
#![tactic(auto)]

ghost use Rattle.std.specs.Prelude.{◌≡◌, ◌⊎◌, ◌<◌, IsTrue, IfOk, IfErr};
ghost use Rattle.std.specs.Str.{is_utf8};
ghost use Rattle.sqlite.specs.State.{HasCleanDisk};
ghost use Rattle.sqlite.specs.Files.{file_state, faults_of, image_of, IsCleanLeft, LeavesFiles};
ghost use Rattle.sqlite.specs.Recovery.{Image};
ghost use Rattle.sqlite.specs.WalFiles.{outcomes};
ghost use Rattle.sqlite.specs.WalReads.{AreClean};
ghost use Rattle.book_rows.specs.Book.{Book, IsBatch, IsBefore};
ghost use Rattle.keeper_core.specs.{Keeping.LoadCause, declared.keeper.Loaded.TheVariants.Failed};
ghost use Rattle.keeper_sqlite.specs.Told.{Holds, TellsCrash};
ghost use Rattle.book_recovery.specs.Recovery.{HoldsBook, HoldsABook, HoldsLeft, HoldsTrees, IsWell, FindsBook, GivesAcknowledged, LeavesABook, Recovers, IsKept, GivesRows, GivesAfter, IsUnopened, IsLeftBy, HasABook, IsUnopenedAgain, IsUnopenedAfter};

use book_rows::Batch;
use keeper_core::{Committed, Keeper, Loaded};
use keeper_sqlite::SqliteKeeper;
use sqlite::{Connection, Error, FileStore, Files, Leftover, Options};
use sqlite_disk::{Crash, Disk};
use std::alloc::Global;

/// A book that was opened again: its keeper, and what a load of it gave.
#[derive(Drop)]
pub struct Reopened<D: Disk + Drop> {
    pub keeper: SqliteKeeper<FileStore<D>>,
    pub loaded: Loaded,
}

/// Opens the file of a book, and loads it.
///
/// Of files that hold a book's file the load gives that book, or nothing: where memory ran out, or a fault was counted. Such
/// files are refused for want of memory, for a fault that was counted, or because they are too long, and for nothing else.
pub fn reopen<D: Disk + Drop>(
    alloc: Global,
    files: Files<D>,
    options: Options,
) -> Result<Reopened<D>, (Error, Leftover<D>)>
    requires log { IsTrue (D.Disk.is_usable files.log) }
    requires db { IsTrue (D.Disk.is_usable files.db) }
    ensures finds { IfOk result (λ it. IsWell it.keeper → (book : Book) → HoldsBook (image_of D.Disk files) book → FindsBook it.keeper it.loaded book) }
    ensures honest { IfOk result (λ it. TellsCrash (file_state it.keeper.file) it.keeper.is_beside → AreClean D.Disk files.log files.db) }
    ensures kept { IfOk result (λ it. IsWell it.keeper → GivesRows it.loaded → (book : Book) → Holds (file_state it.keeper.file) it.keeper.is_beside book → IsKept it.keeper book) }
    ensures shut { IfOk result (λ it. TellsCrash (file_state it.keeper.file) it.keeper.is_beside → IsTrue (file_state it.keeper.file).is_open ⊎ (0 < (file_state it.keeper.file).faults)) }
    ensures cause { IfOk result (λ it. LoadCause 0 it.keeper.faults it.loaded) }
    ensures failed { IfOk result (λ it. TellsCrash (file_state it.keeper.file) it.keeper.is_beside → it.loaded ≡ Failed → ∥ HoldsABook (image_of D.Disk files) ∥₁ → 0 < (file_state it.keeper.file).faults) }
    ensures unopened { IfErr result (λ e. IsCleanLeft e.1 → ∥ HoldsABook (image_of D.Disk files) ∥₁ → IsUnopened (faults_of D.Disk files) e.1 e.0) }
    ensures unharmed { IfErr result (λ e. IsCleanLeft e.1 → LeavesFiles files e.1) }
{
    match Connection::open_files(alloc, files, options) {
        Ok(connection) => {
            let mut keeper = SqliteKeeper::adopt(connection);
            let loaded = keeper.load(alloc);
            Ok(Reopened { keeper, loaded })
        }
        Err(unopened) => Err(unopened),
    }
}

/// Gives the two files of a keeper as they are, with nothing written.
///
/// Whatever a stop may leave of them holds the book that the keeper tells. Where it tells none, that holds a book that it says a
/// stop may leave. A keeper that tells nothing has its files left alone too.
pub fn stop<D: Disk + Drop>(keeper: SqliteKeeper<FileStore<D>>) -> Files<D>
    ensures told { AreClean D.Disk result.log result.db → (book : Book) → Holds (file_state keeper.file) keeper.is_beside book
        → (left : Image) → outcomes D.Disk result.log result.db left → HoldsBook left book }
    ensures left { AreClean D.Disk result.log result.db → LeavesABook keeper
        → (left : Image) → outcomes D.Disk result.log result.db left → ∥ HoldsLeft (file_state keeper.file) left ∥₁ }
    ensures leaves { AreClean D.Disk result.log result.db
        → (left : Image) → outcomes D.Disk result.log result.db left → ∥ HoldsTrees (file_state keeper.file) left ∥₁ }
    ensures honest { AreClean D.Disk result.log result.db → HasCleanDisk (file_state keeper.file) }
{
    let connection = keeper.release();
    // Asked for their contracts: what is seen is sound and, outside a transaction, is what is committed.
    let _schema = connection.schema();
    let _is_alone = connection.is_autocommit();
    connection.into_store().close()
}

/// Stops the machine: the two files of a keeper, as that leaves them.
fn stop_machine<D: Crash + Drop>(keeper: SqliteKeeper<FileStore<D>>) -> Files<D>
    ensures log { IsTrue (D.Disk.is_usable result.log) }
    ensures db { IsTrue (D.Disk.is_usable result.db) }
    ensures left { IsLeftBy keeper result }
{
    let mut files = stop(keeper);
    files.log.crash();
    files.db.crash();
    files
}

/// Stops the machine, and opens the book again over what that left.
///
/// The load gives the book that the keeper told. Where it told none, the load gives the acknowledged book, or that and the one
/// further act. Or it gives nothing, as `reopen` says. The files that the stop left are refused only as `reopen` says.
///
/// The faults before a stop are no lower bound of those after it: the SQL library counts those of the disks and the limits of
/// its format in one sum, and gives back the disks alone. So `failed` counts from none, and `unopened` from what the files had
/// counted that the stop left.
pub fn restart<D: Crash + Drop>(
    alloc: Global,
    keeper: SqliteKeeper<FileStore<D>>,
    options: Options,
) -> Result<Reopened<D>, (Error, Leftover<D>)>
    ensures told { IfOk result (λ it. IsWell it.keeper → (book : Book) → Holds (file_state keeper.file) keeper.is_beside book → FindsBook it.keeper it.loaded book) }
    ensures recovers { IfOk result (λ it. IsWell it.keeper → LeavesABook keeper → ∥ Recovers keeper it.keeper it.loaded ∥₁) }
    ensures acknowledged { IfOk result (λ it. IsWell it.keeper → LeavesABook keeper → GivesAcknowledged (file_state keeper.file) it.loaded) }
    ensures honest { IfOk result (λ it. TellsCrash (file_state it.keeper.file) it.keeper.is_beside → HasCleanDisk (file_state keeper.file)) }
    ensures kept { IfOk result (λ it. IsWell it.keeper → GivesRows it.loaded → (book : Book) → Holds (file_state it.keeper.file) it.keeper.is_beside book → IsKept it.keeper book) }
    ensures shut { IfOk result (λ it. TellsCrash (file_state it.keeper.file) it.keeper.is_beside → IsTrue (file_state it.keeper.file).is_open ⊎ (0 < (file_state it.keeper.file).faults)) }
    ensures cause { IfOk result (λ it. LoadCause 0 it.keeper.faults it.loaded) }
    ensures failed { IfOk result (λ it. TellsCrash (file_state it.keeper.file) it.keeper.is_beside → it.loaded ≡ Failed → HasABook keeper → 0 < (file_state it.keeper.file).faults) }
    ensures unopened { IfErr result (λ e. IsCleanLeft e.1 → IsUnopenedAgain keeper e.1 e.0) }
{
    let files = stop_machine(keeper);
    reopen(alloc, files, options)
}

/// Has one more act kept, stops the machine, and opens the book again over what that left.
///
/// After `Done` the load gives the book with the act; after another answer the book, or that with the act. Where a disk fails
/// from some call on, that call is where the machine stopped. The files that the stop left hold that book, and are refused
/// only as `reopen` says.
pub fn commit_and_restart<D: Crash + Drop>(
    alloc: Global,
    mut keeper: SqliteKeeper<FileStore<D>>,
    batch: &Batch,
    options: Options,
) -> (Committed, Result<Reopened<D>, (Error, Leftover<D>)>)
    requires batch { IsBatch batch.now }
    requires next { (book : Book) → Holds (file_state keeper.file) keeper.is_beside book → IsBefore book batch.now.act.n }
    requires text { IsTrue (is_utf8 batch.now.act.body) }
    ensures kept { IfOk result.1 (λ it. IsWell it.keeper → (book : Book) → IsKept keeper book → GivesAfter result.0 book batch.now it.loaded) }
    ensures failed { IfOk result.1 (λ it. TellsCrash (file_state it.keeper.file) it.keeper.is_beside → it.loaded ≡ Failed → (book : Book) → IsKept keeper book → 0 < (file_state it.keeper.file).faults) }
    ensures unopened { IfErr result.1 (λ e. IsCleanLeft e.1 → (book : Book) → IsKept keeper book → IsUnopenedAfter result.0 book batch.now e.1 e.0) }
{
    let committed = keeper.commit(alloc, batch);
    (committed, restart(alloc, keeper, options))
}
