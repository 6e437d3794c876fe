//! The waiting list, held.

use crate::next::next_among;
use crate::ranking::{put_in, take_out};
use crate::{Applicant, Ask, Candidate};
use plain_data::NoMemory;
use std::alloc::Global;
use std::marker::Model;

/// The applicants who were neither admitted nor taken off, in the order in which they applied.
///
/// Contracts see this list and beside it the room for more.
#[derive(Debug, Drop)]
pub struct WaitList {
    applicants: Vec<Applicant>,
    // The same in the order of rank and act, so that the first who could be admitted is next.
    ranked: Vec<Applicant>,
}

impl Model for WaitList {
    ghost use Rattle.std.specs.Prelude.{◌-◌, min, vec_len, vec_capacity};
    ghost use Rattle.wait_list.specs.Waiting.{Waiting};
    ghost use Rattle.wait_list.specs.Ranked.{IsSoundRanking};

    ghost Value = { Waiting };

    ghost view = { λ list. record {
      applicants = list.applicants.items;
      room = min (vec_capacity list.applicants - vec_len list.applicants) (vec_capacity list.ranked - vec_len list.ranked);
    } };

    ghost invariant = { λ list. IsSoundRanking list.applicants.items list.ranked.items };
}

impl WaitList {
    ghost use Rattle.std.specs.Prelude.{◌≡◌, ◌+◌, ◌<◌, ◌≤◌, [], ◌∷◌, ◌++◌, false, if◌then◌else◌, All, OnOk, IfOk, IsOk};
    ghost use Rattle.wait_list.specs.Next.{asked_by, next_candidate};
    ghost use Rattle.wait_list.specs.Waiting.{is_listed, without, HaveOwnNumbers, ActsRise, HaveSizes};

    pub fn new(alloc: Global) -> Result<WaitList, NoMemory>
        ensures { IfOk result (λ list. list.applicants ≡ []) }
    {
        Ok(WaitList {
            applicants: Vec::new(alloc),
            ranked: Vec::new(alloc),
        })
    }

    /// Makes room for one more applicant, and fails only where memory ran out.
    pub fn reserve(&mut self) -> Result<(), NoMemory>
        ensures applicants { self.new.applicants ≡ self.old.applicants }
        ensures room { OnOk result (1 ≤ self.new.room) }
        ensures succeeds { 1 ≤ self.old.room → IsOk result }
        ensures room_kept { self.old.room ≤ self.new.room }
    {
        self.applicants.reserve(1)?;
        self.ranked.reserve(1)?;
        Ok(())
    }

    /// Adds an applicant who applied after all that are listed.
    pub fn push(&mut self, applicant: Applicant)
        requires room { 1 ≤ self.old.room }
        requires number { is_listed self.old.applicants applicant.number ≡ false }
        requires act { All (λ earlier. earlier.act < applicant.act) self.old.applicants }
        requires least_size { 1 ≤ applicant.size }
        requires most_size { applicant.size ≤ 12 }
        ensures applicants { self.new.applicants ≡ self.old.applicants ++ applicant ∷ [] }
        ensures room { self.new.room + 1 ≡ self.old.room }
    {
        put_in(&mut self.ranked, applicant);
        self.applicants.push_reserved(applicant);
    }

    /// Takes an applicant off the list, and says whether it was there.
    pub fn remove(&mut self, number: u32) -> bool
        ensures listed { result ≡ is_listed self.old.applicants number }
        ensures applicants { self.new.applicants ≡ without number self.old.applicants }
        ensures room { self.new.room ≡ (if result then self.old.room + 1 else self.old.room) }
    {
        let listed = self.listed(number);
        take_out(&mut self.applicants, number);
        take_out(&mut self.ranked, number);
        listed
    }

    /// Whether an applicant of that number is on the list.
    pub fn listed(&self, number: u32) -> bool
        ensures { result ≡ is_listed self.now.applicants number }
    {
        self.applicants
            .iter()
            .any(|applicant| applicant.number == number)
    }

    /// The applicants in the order in which they applied.
    pub fn applicants(&self) -> &[Applicant]
        ensures value { result.now ≡ self.now.applicants }
        ensures own_numbers { HaveOwnNumbers self.now.applicants }
        ensures acts_rise { ActsRise self.now.applicants }
        ensures sizes { HaveSizes self.now.applicants }
    {
        &self.applicants
    }

    /// Who is next for a unit, and `None` where there is no mover and no applicant could be admitted to it.
    pub fn next_for(&self, ask: &Ask) -> Option<Candidate>
        requires bedrooms { ask.now.unit.now.bedrooms ≤ 5 }
        ensures { result ≡ next_candidate (asked_by ask.now) self.now.applicants }
    {
        next_among(&self.ranked, ask)
    }
}
