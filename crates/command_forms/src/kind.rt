//! Kinds of commands and changes, by their words.

ghost use Rattle.json_form.specs.Form.{one_of};
ghost use Rattle.command_forms.specs.Kinds.{kinds};

use json_form::{FormFault, Formed, one_of};
use serde_json::Value;
use std::alloc::Global;

/// Which command it is.
#[derive(Clone, Copy)]
pub enum Kind {
    Plan,
    Unit,
    Rents,
    Limits,
    Apply,
    Remove,
    Start,
    Admit,
    AskTransfer,
    Household(ChangeKind),
    Close,
}

/// Which change of a household it is.
#[derive(Clone, Copy)]
pub enum ChangeKind {
    Annual,
    Interim,
    Resume,
    Gross,
    Correct,
    Transfer,
    MoveOut,
    Terminate,
    Withdraw,
}

impl Formed for Kind {
    ghost form = { one_of kinds };

    fn of_value(alloc: Global, value: &Value) -> Result<Kind, FormFault> {
        let kinds = [
            ("plan", Kind::Plan),
            ("unit", Kind::Unit),
            ("rents", Kind::Rents),
            ("limits", Kind::Limits),
            ("apply", Kind::Apply),
            ("remove", Kind::Remove),
            ("start", Kind::Start),
            ("admit", Kind::Admit),
            ("ask_transfer", Kind::AskTransfer),
            ("close", Kind::Close),
            ("annual", Kind::Household(ChangeKind::Annual)),
            ("interim", Kind::Household(ChangeKind::Interim)),
            ("resume", Kind::Household(ChangeKind::Resume)),
            ("gross", Kind::Household(ChangeKind::Gross)),
            ("correct", Kind::Household(ChangeKind::Correct)),
            ("transfer", Kind::Household(ChangeKind::Transfer)),
            ("move_out", Kind::Household(ChangeKind::MoveOut)),
            ("terminate", Kind::Household(ChangeKind::Terminate)),
            ("withdraw", Kind::Household(ChangeKind::Withdraw)),
        ];
        one_of(alloc, value, &kinds)
    }
}
