//! All passes of a desk, made when it is opened.

ghost use Rattle.std.specs.Prelude.{◌≡◌, ◌≤◌, [], length};
ghost use Rattle.std.specs.VecDeque.{deque_capacity};
ghost use Rattle.desk_history.specs.declared.views.View.TheVariants.{Free};
ghost use Rattle.desk_history.specs.Seen.{book_of};
ghost use Rattle.shared_desk.specs.Passes.{AreFresh};

use crate::naming::Naming;
use crate::pass::Pass;
use desk_history::{HistorySeat, SharedHistory, hand_out};
use std::collections::VecDeque;
use std::marker::PhantomData;

/// The most passes that a desk hands out.
pub const MOST_PASSES: u32 = 32;

/// All passes of a desk that is just opened, in the order of their numbers.
pub(crate) fn all_passes<B: Naming>(
    history: &SharedHistory,
    book: &mut HistorySeat,
    mut waiting: VecDeque<Pass<B>>,
    seen: u32,
) -> VecDeque<Pass<B>>
    requires table { (history.now.table_id ≡ B.table) × (book.old.table_id ≡ B.table) × (B.table.words ≡ 1) }
    requires free { book.old.me ≡ (Free (book_of book.old.me.0), []) }
    requires first { ((book_of book.old.me.0).next ≡ 1) × ((book_of book.old.me.0).list ≡ []) }
    requires seen { seen ≡ length (book_of book.old.me.0).start.opening.acts }
    requires room { (waiting.items ≡ []) × (32 ≤ deque_capacity waiting) }
    ensures table { book.new.table_id ≡ book.old.table_id }
    ensures free { book.new.me ≡ (Free (book_of book.new.me.0), []) }
    ensures start { (book_of book.new.me.0).start ≡ (book_of book.old.me.0).start }
    ensures list { (book_of book.new.me.0).list ≡ [] }
    ensures next { (book_of book.new.me.0).next ≡ 33 }
    ensures faults { (book_of book.new.me.0).faults ≡ (book_of book.old.me.0).faults }
    ensures fresh { AreFresh (book_of book.old.me.0).start 1 result.items }
    ensures all { length result.items ≡ 32 }
{
    for given in 0..MOST_PASSES {
        let badge = hand_out(history, book);
        waiting.push_back_reserved(Pass {
            badge,
            number: given + 1,
            seen,
            of: PhantomData,
        });
    }
    waiting
}
