//! Acts as lines of a batch.

use crate::runs::{Told, ran, without_fault};
use keeper_core::Keeper;
use sample_office::{PLAN, RENTS, START, UNIT, written};
use std::alloc::Global;

/// The lines by which clerk 1 does the acts on a day. The requests count from that one on. None is want of memory.
pub fn lines(alloc: Global, on: &str, first: u64, acts: &[&str]) -> Option<Vec<u8>> {
    let mut text = String::new(alloc);
    let mut request = first;
    for act in acts {
        let line = line(alloc, on, request, act)?;
        text.push_str(&line).ok()?;
        request = request.saturating_add(1);
    }
    Some(written(alloc, &text).ok()?.into_bytes())
}

fn line(alloc: Global, on: &str, request: u64, act: &str) -> Option<String> {
    let line = format!(in alloc; "{{'today':'{on}','clerk':1,'request':{request},'act':{act}}}\n");
    line.ok()
}

/// Has clerk 1 do the acts on a day, with requests from that one on. None is want of memory.
pub fn act<K: Keeper>(
    alloc: Global,
    keeper: &mut K,
    on: &str,
    first: u64,
    acts: &[&str],
) -> Option<Told> {
    let input = lines(alloc, on, first, acts)?;
    ran(alloc, keeper, &without_fault("batch"), &input)
}

/// Has clerk 1 do nine acts: a plan, a unit, rents, a household of one of 70, and the closings of January to May 2024. None is
/// want of memory.
pub fn five_months<K: Keeper>(alloc: Global, keeper: &mut K) -> Option<Told> {
    let acts = [
        PLAN,
        UNIT,
        RENTS,
        START,
        "{'kind':'close','month':'2024-01'}",
        "{'kind':'close','month':'2024-02'}",
        "{'kind':'close','month':'2024-03'}",
        "{'kind':'close','month':'2024-04'}",
        "{'kind':'close','month':'2024-05'}",
    ];
    act(alloc, keeper, "2024-01-01", 1, &acts)
}
