//! The table of routes.

ghost use Rattle.std.specs.Prelude.{◌≡◌, true, false, None, ok_or, IfOk, IfSome};
ghost use Rattle.days_core.specs.DayText.{day_from, month_from};
ghost use Rattle.http_routes.specs.Asks.{Leads, OneRoute, method_of, path_of, question_in};
ghost use Rattle.http_routes.specs.Paths.{fits, steps_of};
ghost use Rattle.http_routes.specs.Table.{IsTable};
ghost use Rattle.http_routes.specs.declared.place.Place.{Place};

use crate::parts::{fourth_part, number, second_part};
use crate::place::Place;
use crate::routed::{Routed, ValuePart};
use days_core::{Day, Month, day_of_text, month_of_text};
use http::Method;
use matchit::{InsertError, Router};
use plain_data::NoMemory;
use questions::{Question, QuestionKind};
use std::alloc::Global;

/// The routes of the office.
#[derive(Drop)]
pub struct Routes {
    router: Router<Place>,
    ghost all: { IsTable router },
}

impl Routes {
    pub fn new(alloc: Global) -> Result<Routes, NoMemory> {
        match router(alloc) {
            Ok(router) => Ok(Routes { router }),
            Err(_) => Err(NoMemory),
        }
    }

    /// Where a method and a target lead.
    pub fn lead(&self, method: &str, target: &str) -> Routed
        ensures { Leads method.now target.now result }
    {
        let path = path_of(target);
        let Some(place) = place_of(&self.router, path) else {
            return Routed::NoRoute;
        };
        if method != method_of(place).as_str() {
            return Routed::NoMethod;
        }
        match place {
            Place::Acts => Routed::Act,
            Place::Question(kind) => match question_in(kind, path) {
                Ok(question) => Routed::Question(question),
                Err(part) => Routed::BadPart(part),
            },
        }
    }
}

fn router(alloc: Global) -> Result<Router<Place>, InsertError>
    ensures { IfOk result IsTable }
{
    let mut router = Router::new(alloc);
    router.insert("/acts", Place::Acts)?;
    router.insert("/due/{day}", Place::Question(QuestionKind::Due))?;
    router.insert("/households/{h}", Place::Question(QuestionKind::Household))?;
    router.insert(
        "/households/{h}/paid/{month}",
        Place::Question(QuestionKind::Paid),
    )?;
    router.insert(
        "/households/{h}/records/{r}",
        Place::Question(QuestionKind::Record),
    )?;
    router.insert("/targets/{day}", Place::Question(QuestionKind::Targets))?;
    router.insert("/units/{u}/next/{day}", Place::Question(QuestionKind::Next))?;
    router.insert("/vouchers/{month}", Place::Question(QuestionKind::Voucher))?;
    Ok(router)
}

/// The target up to its first question mark.
fn path_of(target: &str) -> &str
    ensures { result.now ≡ path_of target.now }
{
    match target.split_once('?') {
        Some((path, _)) => path,
        None => target,
    }
}

/// The place whose route fits the path.
fn place_of(router: &Router<Place>, path: &str) -> Option<Place>
    requires { IsTable router.now }
    ensures none { result ≡ None → (place : Place) → fits (steps_of place) path.now ≡ false }
    ensures some { IfSome result (λ place. fits (steps_of place) path.now ≡ true) }
{
    match router.at(path) {
        Ok(found) => Some(*found.value),
        Err(_) => None,
    }
}

fn method_of(place: Place) -> Method
    ensures { result ≡ method_of place }
{
    match place {
        Place::Acts => Method::POST,
        _ => Method::GET,
    }
}

/// The question of that kind that the parts of the path ask.
fn question_in(kind: QuestionKind, path: &str) -> Result<Question, ValuePart>
    ensures { result ≡ question_in kind path.now }
{
    match kind {
        QuestionKind::Household => {
            let household = number(second_part(path)).ok_or(ValuePart::Household)?;
            Ok(Question::Household { household })
        }
        QuestionKind::Record => {
            let household = number(second_part(path)).ok_or(ValuePart::Household)?;
            let target = number(fourth_part(path)).ok_or(ValuePart::Record)?;
            Ok(Question::Record { household, target })
        }
        QuestionKind::Next => {
            let unit = number(second_part(path)).ok_or(ValuePart::Unit)?;
            let day = day(fourth_part(path))?;
            Ok(Question::Next { unit, day })
        }
        QuestionKind::Voucher => {
            let month = month(second_part(path))?;
            Ok(Question::Voucher { month })
        }
        QuestionKind::Paid => {
            let household = number(second_part(path)).ok_or(ValuePart::Household)?;
            let month = month(fourth_part(path))?;
            Ok(Question::Paid { household, month })
        }
        QuestionKind::Due => {
            let day = day(second_part(path))?;
            Ok(Question::Due { day })
        }
        QuestionKind::Targets => {
            let day = day(second_part(path))?;
            Ok(Question::Targets { day })
        }
    }
}

fn day(text: &str) -> Result<Day, ValuePart>
    ensures { result ≡ ok_or (day_from text.now) ValuePart.Day }
{
    day_of_text(text).ok().ok_or(ValuePart::Day)
}

fn month(text: &str) -> Result<Month, ValuePart>
    ensures { result ≡ ok_or (month_from text.now) ValuePart.Month }
{
    month_of_text(text).ok().ok_or(ValuePart::Month)
}

/// No two routes fit one target.
pub fn one_route_fits()
    ensures { OneRoute }
{}
