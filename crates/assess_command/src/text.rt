//! From bytes to bytes.

ghost use Rattle.std.specs.Prelude.{◌≡◌, IfOk};
ghost use Rattle.serde_json.specs.View.{view};
ghost use Rattle.assess_command.specs.Assess.{figures, bad_facts, line};

use json_form::{Exact, Members, refused};
use payment_rules::Payment;
use plain_data::{NoMemory, Text};
use std::alloc::Global;

/// A value as a line of JSON.
pub fn line_of(alloc: Global, value: &Exact) -> Result<Text, NoMemory>
    ensures { IfOk result (λ text. text ≡ line (view value.now.value)) }
{
    let mut text = value.text(alloc)?.into_bytes();
    text.push(b'\n')?;
    Ok(Text::new(text))
}

/// The figures of a payment.
pub fn figures(
    alloc: Global,
    annual: u32,
    adjusted: u32,
    payment: &Payment,
) -> Result<Exact, NoMemory>
    ensures { IfOk result (λ exact. view exact.value ≡ figures annual adjusted payment.now) }
{
    let members = Members::new(alloc)
        .with("adjusted", &adjusted)?
        .with("annual", &annual)?
        .with("assistance", &payment.assistance)?
        .with("reimbursement", &payment.reimbursement)?
        .with("tenant_rent", &payment.tenant_rent)?
        .with("ttp", &payment.ttp)?;
    Ok(members.done())
}

/// The refusal of facts that break a rule.
pub fn bad_facts(alloc: Global, rule: u8) -> Result<Exact, NoMemory>
    ensures { IfOk result (λ exact. view exact.value ≡ bad_facts rule) }
{
    let cause = Members::new(alloc)
        .with("kind", &"FactsRule")?
        .with("number", &8u32)?
        .with("rule", &u32::from(rule))?;
    refused(alloc, cause)
}
