//! A desk is opened, hands out passes, and ends.

ghost use Rattle.std.specs.Prelude.{◌≡◌, ◌≤◌, ◌<◌, ◌+◌, None, Err, [], IfOk, IfErr, OnOk, IsOk};
ghost use Rattle.std.specs.VecDeque.{deque_capacity};
ghost use Rattle.book_rows.specs.Book.{Book, book_of as rows_of};
ghost use Rattle.keeper_core.specs.Keeping.{Gives, Keeps, LeavesTold, LoadCause};
ghost use Rattle.clerk_desk.specs.Below.office_step.Valid.{first_fault};
ghost use Rattle.clerk_desk.specs.Opening.{Opens, IsUnopened, BlamesKeeper};
ghost use Rattle.desk_history.specs.declared.views.View.TheVariants.{Blank};
ghost use Rattle.desk_history.specs.Seen.{start_on};
ghost use Rattle.shared_desk.specs.History.{book_in, capacity_of, IsLegalHistory};
ghost use Rattle.shared_desk.specs.Desk.{IsFinished, IsFinishedWith};
ghost use Rattle.shared_desk.specs.Passes.{IsFresh};

use crate::locked::Locked;
use crate::naming::Naming;
use crate::pass::Pass;
use crate::passes::{MOST_PASSES, all_passes};
use crate::shared::SharedDesk;
use book_rows::Tables;
use clerk_desk::office_core::{Capacity, Office};
use clerk_desk::{DeskFault, open_office};
use desk_history::{NewHistory, open_book};
use keeper_core::{Keeper, Loaded};
use std::alloc::Global;
use std::collections::VecDeque;
use std::marker::{Model, PhantomData};
use std::snapshot::Snapshot;
use std::sync::Mutex;

/// A desk, and the passes that it has not handed out.
///
/// Contracts see the rows on which it was opened, how much its office holds, and how many passes it has handed out.
#[derive(Drop)]
pub struct Desk<K: Keeper + Drop, B: Naming> {
    shared: SharedDesk<K, B>,
    waiting: VecDeque<Pass<B>>,
    opening: Snapshot<Tables>,
    capacity: Capacity,
    made: u32,
}

impl<K: Keeper + Drop, B: Naming> Model for Desk<K, B> {
    ghost use Rattle.std.specs.Prelude.{◌≡◌, ◌+◌, length};
    ghost use Rattle.book_rows.specs.Book.{book_of as rows_of};
    ghost use Rattle.desk_history.specs.Seen.{start_on};
    ghost use Rattle.shared_desk.specs.Passes.{DeskView, AreFresh};

    ghost Value = { DeskView };

    ghost view = { λ desk. record { start = start_on (rows_of desk.opening.value) desk.capacity.acts desk.capacity.lines; made = desk.made } };

    ghost invariant = { λ desk. AreFresh (start_on (rows_of desk.opening.value) desk.capacity.acts desk.capacity.lines) (desk.made + 1) desk.waiting.items × (desk.made + length desk.waiting.items ≡ 32) };
}

/// Why there is no desk, and the keeper that it would have had.
#[derive(Drop)]
pub struct Unopened<K> {
    pub fault: DeskFault,
    pub keeper: K,
}

/// Why there is no further pass.
#[derive(Clone, Copy, Debug, PartialEq, Eq)]
pub enum PassFault {
    /// So many passes were handed out, which are all.
    TooManyPasses { made: u32 },
}

/// What a desk leaves.
#[derive(Drop)]
pub struct Finished<K> {
    pub tables: Tables,
    pub keeper: K,
}

impl<K: Keeper + Drop, B: Naming> Desk<K, B> {
    ghost use Rattle.record_history.specs.Limits.{most_acts, most_lines};

    /// Opens a desk over a new history, on the book that the keeper keeps.
    pub fn open(
        alloc: Global,
        history: NewHistory,
        keeper: K,
        capacity: Capacity,
    ) -> Result<Desk<K, B>, Unopened<K>>
        requires acts { capacity.acts ≤ most_acts }
        requires lines { capacity.lines ≤ most_lines }
        requires table { (history.table.shared.table_id ≡ B.table) × (history.book.table_id ≡ B.table) × (B.table.words ≡ 1) }
        requires blank { history.book.me ≡ (Blank, []) }
        requires told { (book : Book) → K.holds keeper book → B.told book }
        requires told_by { (book : Book) → B.told book → K.holds keeper book }
        requires sound { B.sound → K.tells_crash keeper → LeavesTold (K.holds keeper) (K.leaves keeper) }
        ensures made { IfOk result (λ desk. desk.made ≡ 0) }
        ensures capacity { IfOk result (λ desk. capacity_of desk.start ≡ capacity) }
        ensures valid { IfOk result (λ desk. first_fault capacity (book_in desk.start.opening) ≡ None) }
        ensures legal { IfOk result (λ desk. IsLegalHistory desk.start []) }
        ensures loaded { IfErr result (λ un. (loaded : Loaded) × Gives (K.holds un.keeper) (K.bad un.keeper) loaded
            × LoadCause (K.faults keeper) (K.faults un.keeper) loaded × Opens capacity loaded (Err un.fault)) }
        ensures unopened { IfErr result (λ un. IsUnopened capacity (K.holds un.keeper) (K.bad un.keeper) un.fault) }
        ensures cause { IfErr result (λ un. BlamesKeeper (K.faults keeper) (K.faults un.keeper) un.fault) }
        ensures kept { IfErr result (λ un. Keeps (K.holds keeper) (K.holds un.keeper)) }
        ensures goes_on { IfErr result (λ un. K.is_well un.keeper → K.is_well keeper × Keeps (K.holds un.keeper) (K.holds keeper)) }
        ensures stopped { IfErr result (λ un. K.tells_crash un.keeper → K.tells_crash keeper × Keeps (K.leaves keeper) (K.leaves un.keeper)) }
    {
        let Ok(waiting) = VecDeque::with_capacity(alloc, MOST_PASSES as usize) else {
            return Err(Unopened {
                fault: DeskFault::NoMemory,
                keeper,
            });
        };
        let mut keeper = keeper;
        match open_office(alloc, &mut keeper, capacity) {
            Ok(office) => Ok(desk_of(history, waiting, office, keeper)),
            Err(fault) => Err(Unopened { fault, keeper }),
        }
    }

    /// Hands out a pass, with the next number.
    pub fn pass(&mut self) -> Result<Pass<B>, PassFault>
        ensures start { self.new.start ≡ self.old.start }
        ensures pass { IfOk result (λ pass. IsFresh self.old.start (self.old.made + 1) pass) }
        ensures made { OnOk result (self.new.made ≡ self.old.made + 1) }
        ensures some { self.old.made < 32 → IsOk result }
        ensures none { IfErr result (λ fault. (fault ≡ PassFault.TooManyPasses self.old.made) × (self.old.made ≡ 32) × (self.new.made ≡ 32)) }
    {
        match self.waiting.pop_front() {
            Some(pass) => {
                self.made += 1;
                Ok(pass)
            }
            None => Err(PassFault::TooManyPasses { made: self.made }),
        }
    }

    /// The part that threads share.
    pub fn shared(&self) -> &SharedDesk<K, B> {
        &self.shared
    }

    /// Ends the desk with a pass.
    pub fn finish(self, pass: Pass<B>) -> Finished<K>
        ensures { IsFinished pass self.made (rows_of result.tables) B.told (K.holds result.keeper) (K.is_well result.keeper) B.sound (K.tells_crash result.keeper) (K.leaves result.keeper) }
    {
        let Desk {
            shared,
            waiting,
            ..
        } = self;
        let SharedDesk { history, lock } = shared;
        lock.into_inner().finish(history, waiting, pass)
    }

    /// Ends the desk with a pass, and is given others that were handed out.
    pub fn finish_with(self, pass: Pass<B>, others: Vec<Pass<B>>) -> Finished<K>
        ensures { IsFinishedWith others.items pass self.made (rows_of result.tables) B.told (K.holds result.keeper) (K.is_well result.keeper) B.sound (K.tells_crash result.keeper) (K.leaves result.keeper) }
    {
        let Desk {
            shared,
            waiting,
            ..
        } = self;
        let SharedDesk { history, lock } = shared;
        let mut locked = lock.into_inner();
        locked.retire_each(&history.shared, VecDeque::from(others));
        locked.finish(history, waiting, pass)
    }
}

/// A desk of an office whose book the keeper tells.
fn desk_of<K: Keeper + Drop, B: Naming>(
    history: NewHistory,
    waiting: VecDeque<Pass<B>>,
    office: Office,
    keeper: K,
) -> Desk<K, B>
    requires table { (history.table.shared.table_id ≡ B.table) × (history.book.table_id ≡ B.table) × (B.table.words ≡ 1) }
    requires blank { history.book.me ≡ (Blank, []) }
    requires room { (waiting.items ≡ []) × (32 ≤ deque_capacity waiting) }
    requires kept { (book : Book) → K.holds keeper book → book ≡ office.book }
    requires told { (book : Book) → K.holds keeper book → B.told book }
    requires on { K.is_well keeper → (book : Book) → B.told book → K.holds keeper office.book }
    requires sound { B.sound → K.tells_crash keeper → LeavesTold (K.holds keeper) (K.leaves keeper) }
    ensures start { result.start ≡ start_on office.book office.capacity.acts office.capacity.lines }
    ensures made { result.made ≡ 0 }
    ensures legal { IsLegalHistory result.start [] }
{
    let NewHistory { table, mut book } = history;
    let capacity = office.capacity();
    let tables = office.tables();
    let seen = tables.acts.len() as u32;
    let opening = Snapshot::of(tables);
    open_book(
        &table.shared,
        &mut book,
        tables,
        capacity.acts,
        capacity.lines,
        &keeper,
    );
    let waiting = all_passes(&table.shared, &mut book, waiting, seen);
    let locked = Locked {
        office,
        keeper,
        book,
        of: PhantomData,
    };
    Desk {
        shared: SharedDesk {
            history: table,
            lock: Mutex::new(locked),
        },
        waiting,
        opening,
        capacity,
        made: 0,
    }
}
