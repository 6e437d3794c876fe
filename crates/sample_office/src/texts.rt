//! The texts of acts as an office keeps them, but with ' in place of " and with FACTS for the facts of a household.

use plain_data::{NoMemory, SharedText};
use std::alloc::Global;

/// One of 70 with benefits of 9,600 and medical expenses of 1,000, who pays 212 of rents of 760.
pub const FACTS: &str =
    "{'assets':[],'care_school':0,'care_work':0,'disability':0,'disposals':[],'exempt':false,\
    'incomes':[{'annual':9600,'kind':'Benefits','member':0}],'medical':1000,\
    'members':[{'born':'1953-06-01','cared':false,'disabled':false,'helped':false,'relation':'Head','student':false}],\
    'welfare':0}";

/// A plan from January 2024 on, of the first method and with two preferences.
pub const PLAN: &str =
    "{'bounds':[[1,1],[1,2],[2,4],[3,6],[4,8],[5,10]],'early':false,'expected':10,'first':'2024-01','fiscal_month':1,\
    'kind':'plan','method':1,'passbook':200,'ranks':[1,2],'report_days':30}";

/// Unit 1, of one bedroom.
pub const UNIT: &str = "{'accessible':false,'bedrooms':1,'group':1,'kind':'unit','name':'A-101'}";

/// Unit 2, of one bedroom.
pub const OTHER_UNIT: &str =
    "{'accessible':false,'bedrooms':1,'group':1,'kind':'unit','name':'A-102'}";

/// Rents of 700 and 60 for group 1.
pub const RENTS: &str =
    "{'contract_rent':700,'from':'2024-01-01','group':1,'kind':'rents','utility':60}";

/// For families of every size 48,000, 30,000 and 18,000.
pub const LIMITS: &str =
    "{'extremely_low':[18000,18000,18000,18000,18000,18000,18000,18000,18000,18000,18000,18000],'from':'2024-01-01',\
    'kind':'limits','low':[48000,48000,48000,48000,48000,48000,48000,48000,48000,48000,48000,48000],\
    'very_low':[30000,30000,30000,30000,30000,30000,30000,30000,30000,30000,30000,30000]}";

/// An applicant alone, of extremely low income.
pub const APPLY: &str =
    "{'accessible':false,'annual':9600,'kind':'apply','name':'Ben Ochoa','persons':1,'preferences':[],'size':1}";

/// Applicant 1 moves into unit 1 in February.
pub const ADMIT: &str = "{'applicant':1,'facts':FACTS,'from':'2024-02-01','kind':'admit','unit':1}";

/// A household is certified in unit 1 from January on.
pub const START: &str =
    "{'facts':FACTS,'from':'2024-01-01','kind':'start','name':'Ada Reed','unit':1}";

/// Income of household 1 that begins in January 2024, told of in time. Its payment rises to 260 from March on.
pub const INTERIM: &str =
    "{'done':'2024-02-01','event':'2024-01-20','facts':{'assets':[],'care_school':0,'care_work':0,'disability':0,\
    'disposals':[],'exempt':false,'incomes':[{'annual':10800,'kind':'Benefits','member':0}],'medical':0,\
    'members':[{'born':'1953-06-01','cared':false,'disabled':false,'helped':false,'relation':'Head','student':false}],\
    'welfare':0},'from':'2024-03-01','household':1,'kind':'interim','notice':'2024-01-25','seen':1}";

pub const CLOSE_JANUARY: &str = "{'kind':'close','month':'2024-01'}";

/// The text with the facts written out, and with " for each '.
pub fn written(alloc: Global, text: &str) -> Result<String, NoMemory> {
    let whole = text.replace(alloc, "FACTS", FACTS)?;
    Ok(whole.replace(alloc, "'", "\"")?)
}

/// The same as the body of an act.
pub fn body(alloc: Global, text: &str) -> Result<SharedText, NoMemory> {
    SharedText::new(written(alloc, text)?.into_bytes())
}

/// The HTTP message by which clerk 1 posts an act.
pub fn post(alloc: Global, request: u64, act: &str) -> Result<String, NoMemory> {
    let text = format!(in alloc; "{{'clerk':1,'request':{request},'act':{act}}}")?;
    let body = written(alloc, &text)?;
    let length = body.len() as u64;
    let message = format!(in alloc;
        "POST /acts HTTP/1.1\r\nContent-Length: {length}\r\n\r\n{body}"
    );
    Ok(message?)
}

/// The messages that post the plan, the unit, its rents and the household, one request after the other.
pub fn opening(alloc: Global) -> Result<String, NoMemory> {
    let mut text = String::new(alloc);
    for (request, act) in [(1u64, PLAN), (2, UNIT), (3, RENTS), (4, START)] {
        text.push_str(&post(alloc, request, act)?)?;
    }
    Ok(text)
}
