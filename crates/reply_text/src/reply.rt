//! Replies in JSON.

ghost use Rattle.std.specs.Prelude.{◌≡◌, IfOk};
ghost use Rattle.serde_json.specs.View.{view};
ghost use Rattle.reply_text.specs.Replies.{made_data, done_data, reply_data, reply_text, bad_form_text};

use crate::members::{one, two};
use crate::refusal::{failure_value, refusal_value};
use json_form::{Exact, Members, bad_form};
use office_answers::Reply;
use office_answers::office_step::{Done, Made};
use plain_data::{NoMemory, Text};
use std::alloc::Global;

/// The text of a reply to a call.
pub fn text_of_reply(alloc: Global, reply: &Reply) -> Result<Text, NoMemory>
    ensures { IfOk result (λ text. text ≡ reply_text reply.now) }
{
    reply_value(alloc, reply)?.text(alloc)
}

/// The text that tells the first place that isn't of the form.
pub fn text_of_bad_form(alloc: Global, path: &str) -> Result<Text, NoMemory>
    ensures { IfOk result (λ text. text ≡ bad_form_text path.now) }
{
    bad_form(alloc, path)?.text(alloc)
}

fn reply_value(alloc: Global, reply: &Reply) -> Result<Exact, NoMemory>
    ensures { IfOk result (λ exact. view exact.value ≡ reply_data reply.now) }
{
    match reply {
        Reply::Accepted(done) => done_value(alloc, done),
        Reply::Refused(why) => refusal_value(alloc, why),
        Reply::StoreFault => failure_value(alloc, "Store"),
        Reply::NoMemory => failure_value(alloc, "NoMemory"),
    }
}

fn done_value(alloc: Global, done: &Done) -> Result<Exact, NoMemory>
    ensures { IfOk result (λ exact. view exact.value ≡ done_data done.now) }
{
    let made = made_value(alloc, &done.made)?;
    let members = Members::new(alloc)
        .with("act", &done.act)?
        .with("day", &done.day)?
        .with_value("made", made)?;
    Ok(members.done())
}

fn made_value(alloc: Global, made: &Made) -> Result<Exact, NoMemory>
    ensures { IfOk result (λ exact. view exact.value ≡ made_data made.now) }
{
    match made {
        Made::Nothing => Ok(Exact::null()),
        Made::Unit(unit) => Ok(one(alloc, "unit", unit)?.done()),
        Made::Applicant(applicant) => Ok(one(alloc, "applicant", applicant)?.done()),
        Made::Closed {
            amount,
            lines,
            month,
        } => {
            let members = two(alloc, "month", month, "lines", lines)?.with("amount", amount)?;
            Ok(members.done())
        }
        Made::Certified {
            assistance,
            household,
            target,
            reimbursement,
            tenant_rent,
            ttp,
        } => {
            let members = two(alloc, "ttp", ttp, "tenant_rent", tenant_rent)?
                .with("reimbursement", reimbursement)?
                .with("record", target)?
                .with("household", household)?
                .with("assistance", assistance)?;
            Ok(members.done())
        }
    }
}
