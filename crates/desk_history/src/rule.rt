//! The table of a history, and the rule that holds between any two steps on it.

use crate::views::View;
use atomic_table::{Badge, Play, Seat, Shared, Table, TableRule};
use std::alloc::Global;
use std::marker::{Brand, PhantomData};

/// The rule of a history: it holds between any two steps.
pub struct OneHistory;

impl TableRule<(), View, ()> for OneHistory {
    ghost use Rattle.desk_history.specs.declared.views.View.TheVariants.{Blank};
    ghost use Rattle.desk_history.specs.Rule.{Keeps};

    ghost holds = { λ _ state. Keeps state.words state.views };

    ghost first = { λ _. Blank };
}

/// A history with its memory.
pub type HistoryTable = Table<(), View, (), OneHistory, Global>;

/// A history as threads share it.
pub type SharedHistory = Shared<(), View, (), OneHistory>;

/// A seat that steps.
pub type HistorySeat = Seat<(), View>;

/// A seat that waits.
pub type HistoryBadge = Badge<View>;

/// The view that a step leaves. Each call picks it.
pub trait Wanted {
    ghost use Rattle.desk_history.specs.declared.views.View.{View};

    ghost view: { View };
}

impl Wanted for Brand {
    ghost use Rattle.desk_history.specs.declared.views.View.TheVariants.{Spent};

    ghost view = { Spent };
}

/// The step to that view.
pub struct Becomes<A: Wanted> {
    pub of: PhantomData<A>,
}

impl<A: Wanted> Play<(), View> for Becomes<A> {
    ghost use Rattle.desk_history.specs.Rule.{Turns};

    ghost then = { λ _ me found after. Turns me A.view found after };
}
