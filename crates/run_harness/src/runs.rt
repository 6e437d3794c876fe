//! A run of the program in memory, and what it told.

use keeper_core::Keeper;
use office_io::{Clock, FixedClock, MemorySink, MemorySource};
use office_prog::run;
use sample_office::day;
use std::alloc::Global;

/// The words of a run, with blanks between them; the calls of its source and its sink that are to fail; and the most bytes
/// that one call takes.
#[derive(Clone, Copy)]
pub struct Trial<'a> {
    pub words: &'a str,
    pub unread: Option<u64>,
    pub unwritten: Option<u64>,
    pub at_once: usize,
}

/// A run on these words without a fault, by 40 bytes at once.
pub fn without_fault(words: &str) -> Trial<'_> {
    Trial {
        words,
        unread: None,
        unwritten: None,
        at_once: 40,
    }
}

/// The status of a run, and what it wrote, with ' for ".
#[derive(Drop)]
pub struct Told {
    pub status: u8,
    pub text: String,
}

impl Told {
    /// Whether the status is this one, and the text too.
    pub fn is(&self, status: u8, text: &str) -> bool {
        self.status == status && self.text.as_str() == text
    }

    /// Whether the status is this one, and the text has so many lines.
    pub fn has_lines(&self, status: u8, count: usize) -> bool {
        self.status == status && self.text.lines().count() == count
    }

    /// Whether the status is this one, and the text a beginning of the other.
    pub fn begins(&self, status: u8, whole: &str) -> bool {
        self.status == status && whole.starts_with(self.text.as_str())
    }
}

/// Runs the program on the keeper's book, while the clock shows 2 January 2024. None is want of memory.
pub fn ran<K: Keeper>(alloc: Global, keeper: &mut K, trial: &Trial, input: &[u8]) -> Option<Told> {
    let clock = FixedClock::new(day("2024-01-02"));
    ran_by(alloc, keeper, &clock, trial, input)
}

/// Runs the program on the keeper's book, by that clock. None is want of memory.
pub fn ran_by<K: Keeper, C: Clock>(
    alloc: Global,
    keeper: &mut K,
    clock: &C,
    trial: &Trial,
    input: &[u8],
) -> Option<Told> {
    let words = words(alloc, trial.words)?;
    let mut source = source(alloc, trial, input)?;
    let mut sink = sink(alloc, trial)?;
    let status = run(alloc, &words, &mut source, &mut sink, clock, keeper).number();
    let text = written(alloc, sink)?;
    Some(Told { status, text })
}

fn words(alloc: Global, words: &str) -> Option<Vec<String>> {
    let mut all = Vec::new(alloc);
    for word in words.split_whitespace() {
        all.push(word.to_string(alloc).ok()?).ok()?;
    }
    Some(all)
}

fn source(alloc: Global, trial: &Trial, input: &[u8]) -> Option<MemorySource> {
    let failing = calls(alloc, trial.unread)?;
    let bytes = input.to_vec(alloc).ok()?;
    Some(MemorySource::new(bytes, failing, trial.at_once.max(1)))
}

fn sink(alloc: Global, trial: &Trial) -> Option<MemorySink> {
    let failing = calls(alloc, trial.unwritten)?;
    MemorySink::new(alloc, 2_000, failing, trial.at_once.max(1)).ok()
}

fn calls(alloc: Global, failing: Option<u64>) -> Option<Vec<u64>> {
    let mut calls = Vec::new(alloc);
    if let Some(call) = failing {
        calls.push(call).ok()?;
    }
    Some(calls)
}

/// What the sink holds, with ' for ".
fn written(alloc: Global, sink: MemorySink) -> Option<String> {
    let text = String::from_utf8(sink.into_bytes()).ok()?;
    text.replace(alloc, "\"", "'").ok()
}
