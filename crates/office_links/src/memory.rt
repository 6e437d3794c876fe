//! A listener in memory.

use crate::{Accepted, Link, Listener};
use office_io::{Sink, Source};
use plain_data::NoMemory;
use std::alloc::Global;
use std::marker::Model;
use std::vec;

/// A listener of given links, some of whose accepts fail by plan. It keeps the links that are given back.
///
/// Contracts see both lists of links and the plan.
#[derive(Drop)]
pub struct MemoryListener<S: Source, W: Sink> {
    waiting: vec::IntoIter<Link<S, W>>,
    given_back: Vec<Link<S, W>>,
    room: usize,
    failing: Vec<u64>,
    calls: u64,
    faults: u64,
}

impl<S: Source, W: Sink> Model for MemoryListener<S, W> {
    ghost use Rattle.std.specs.Prelude.{◌+◌, ◌≤◌, vec_len, vec_capacity};
    ghost use Rattle.std.specs.List.{All};
    ghost use Rattle.std.specs.Vec.Iter.{into_iter_items, into_iter_len};
    ghost use Rattle.office_links.specs.Links.{standing_by};
    ghost use Rattle.office_links.specs.Memory.{Hearing, IsUnused};

    ghost Value = { Hearing S W };

    ghost view = { λ listener. record {
      left = into_iter_items listener.waiting;
      given_back = listener.given_back.items;
      room = listener.room;
      failing = listener.failing.items;
      calls = listener.calls;
      faults = listener.faults;
    } };

    ghost invariant = { λ listener.
        (into_iter_len listener.waiting + vec_len listener.given_back ≤ listener.room)
        × (listener.room ≤ vec_capacity listener.given_back)
        × All (λ link. IsUnused (standing_by S.left S.faults W.held W.faults link.source link.sink))
        (into_iter_items listener.waiting) };
}

impl<S: Source + Drop, W: Sink + Drop> MemoryListener<S, W> {
    ghost use Rattle.std.specs.Prelude.{◌≡◌, [], length, IfOk};
    ghost use Rattle.std.specs.List.{All};
    ghost use Rattle.office_links.specs.Links.{standing_by};
    ghost use Rattle.office_links.specs.Memory.{IsUnused};

    /// A listener of these links. The calls of `accept` with the numbers in `failing` fail, counted from 0, but where
    /// no link is left. The room for the links that are given back is taken here.
    pub fn new(
        alloc: Global,
        links: Vec<Link<S, W>>,
        failing: Vec<u64>,
    ) -> Result<MemoryListener<S, W>, NoMemory>
        requires unused { All (λ link. IsUnused (standing_by S.left S.faults W.held W.faults link.source link.sink))
            links.items }
        ensures { IfOk result (λ listener. listener ≡ record {
          left = links.items;
          given_back = [];
          room = length links.items;
          failing = failing.items;
          calls = 0;
          faults = 0;
        }) }
    {
        let room = links.len();
        Ok(MemoryListener {
            given_back: Vec::with_capacity(alloc, room)?,
            waiting: links.into_iter(),
            room,
            failing,
            calls: 0,
            faults: 0,
        })
    }

    /// The links that were given back, in that order.
    pub fn given_back(&self) -> &[Link<S, W>]
        ensures { result.now ≡ self.now.given_back }
    {
        &self.given_back
    }

    /// The faults so far.
    pub fn faults(&self) -> u64
        ensures { result ≡ self.now.faults }
    {
        self.faults
    }
}

impl<S: Source + Drop, W: Sink + Drop> Listener for MemoryListener<S, W> {
    ghost use Rattle.std.specs.Prelude.{◌≡◌, length, Some};
    ghost use Rattle.office_links.specs.Links.{Fits, Counts, AcceptCause, Accepts, after_giving_back, standing_by};
    ghost use Rattle.office_links.specs.Memory.{accept_answer, after_accept, after_done, told_by};

    type In = S;

    type Out = W;

    ghost left = { λ listener. length listener.left };

    ghost links = { λ listener. Some (told_by (standing_by S.left S.faults W.held W.faults) listener) };

    ghost faults = { λ listener. listener.faults };

    fn accept(&mut self) -> Accepted<S, W>
        ensures count { Counts (length self.old.left) (length self.new.left) result }
        ensures fits { Fits (length self.old.left) (told_by (standing_by S.left S.faults W.held W.faults) self.old) }
        ensures links { Accepts (standing_by S.left S.faults W.held W.faults)
            (told_by (standing_by S.left S.faults W.held W.faults) self.old)
            (Some (told_by (standing_by S.left S.faults W.held W.faults) self.new)) result }
        ensures cause { AcceptCause self.old.faults self.new.faults result }
        ensures answer { result ≡ accept_answer self.old }
        ensures after { self.new ≡ after_accept self.old }
    {
        let call = self.calls;
        self.calls = call.saturating_add(1);
        if self.waiting.len() > 0 && self.failing.contains(&call) {
            self.faults = self.faults.saturating_add(1);
            return Accepted::Failed;
        }
        match self.waiting.next() {
            Some(link) => {
                let Link { source, sink } = link;
                Accepted::Link(source, sink)
            }
            None => Accepted::End,
        }
    }

    fn hang_up(_sink: &mut W) {}

    fn done(&mut self, source: S, sink: W)
        ensures count { length self.new.left ≡ length self.old.left }
        ensures links { told_by (standing_by S.left S.faults W.held W.faults) self.new
            ≡ after_giving_back (told_by (standing_by S.left S.faults W.held W.faults) self.old)
            (standing_by S.left S.faults W.held W.faults source sink) }
        ensures cause { self.new.faults ≡ self.old.faults }
        ensures after { self.new ≡ after_done self.old (record { source = source; sink = sink }) }
    {
        if self.waiting.len() + self.given_back.len() < self.room {
            self.given_back.push_reserved(Link { source, sink });
        }
    }
}
