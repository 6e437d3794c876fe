//! Questions, read of JSON.

ghost use Rattle.std.specs.Prelude.{◌≡◌, true, map};
ghost use Rattle.serde_json.specs.View.{view};
ghost use Rattle.json_form.specs.Gives.{Gives};
ghost use Rattle.json_form.specs.Form.{one_of};
ghost use Rattle.json_front.specs.Questions.{kinds, fields_at, names_of, question_at};

use json_form::{Form, FormFault, closed, field, field_by, object, one_of};
use questions::{Question, QuestionKind};
use serde_json::Value;
use std::alloc::Global;

/// The kind of a question.
#[derive(Drop)]
struct KindWord;

impl Form for KindWord {
    type Read = QuestionKind;

    ghost form = { λ _. one_of kinds };

    ghost passes = { λ _ _. true };

    fn read(&self, alloc: Global, value: &Value) -> Result<QuestionKind, FormFault> {
        let kinds = [
            ("household", QuestionKind::Household),
            ("record", QuestionKind::Record),
            ("next", QuestionKind::Next),
            ("voucher", QuestionKind::Voucher),
            ("paid", QuestionKind::Paid),
            ("due", QuestionKind::Due),
            ("targets", QuestionKind::Targets),
        ];
        one_of(alloc, value, &kinds)
    }
}

/// A question.
#[derive(Drop)]
pub struct Ask;

impl Form for Ask {
    type Read = Question;

    ghost form = { λ _. question_at };

    ghost passes = { λ _ _. true };

    #[tactic(auto, unfolding(crate::specs::Questions::question_at))]
    fn read(&self, alloc: Global, value: &Value) -> Result<Question, FormFault> {
        object(alloc, value)?;
        let kind = field_by(alloc, value, "kind", &KindWord)?;
        let asked = fields_of(alloc, value, kind)?;
        closed(alloc, value, names_of(kind), asked)
    }
}

#[tactic(auto, unfolding(crate::specs::Questions::fields_at))]
fn fields_of(alloc: Global, value: &Value, kind: QuestionKind) -> Result<Question, FormFault>
    ensures { Gives (λ asked. asked) result (fields_at kind (view value.now)) }
{
    match kind {
        QuestionKind::Household => {
            let household = field(alloc, value, "household")?;
            Ok(Question::Household { household })
        }
        QuestionKind::Record => {
            let household = field(alloc, value, "household")?;
            let target = field(alloc, value, "record")?;
            Ok(Question::Record { household, target })
        }
        QuestionKind::Next => {
            let unit = field(alloc, value, "unit")?;
            let day = field(alloc, value, "day")?;
            Ok(Question::Next { unit, day })
        }
        QuestionKind::Voucher => {
            let month = field(alloc, value, "month")?;
            Ok(Question::Voucher { month })
        }
        QuestionKind::Paid => {
            let household = field(alloc, value, "household")?;
            let month = field(alloc, value, "month")?;
            Ok(Question::Paid { household, month })
        }
        QuestionKind::Due => {
            let day = field(alloc, value, "day")?;
            Ok(Question::Due { day })
        }
        QuestionKind::Targets => {
            let day = field(alloc, value, "day")?;
            Ok(Question::Targets { day })
        }
    }
}

fn names_of(kind: QuestionKind) -> &'static [&'static str]
    ensures { map (λ name. name.now) result.now ≡ names_of kind }
{
    match kind {
        QuestionKind::Household => &["kind", "household"],
        QuestionKind::Record => &["kind", "household", "record"],
        QuestionKind::Next => &["kind", "unit", "day"],
        QuestionKind::Voucher => &["kind", "month"],
        QuestionKind::Paid => &["kind", "household", "month"],
        QuestionKind::Due => &["kind", "day"],
        QuestionKind::Targets => &["kind", "day"],
    }
}
