//! A turn of a process at a folder: an order, and the calls that were made to follow it.
ghost use Rattle.folder_turns.specs.Guarding.{HasGuard};

use crate::ahead::{ahead_of, reads_with, remembered, removed_with};
use crate::asking::next;
use crate::guarding::{Guard, is_its_part};
use crate::order::{End, Order};
use crate::replay::Fault;
use crate::request::{Answer, Request, Told};
use crate::step::Step;
use std::alloc::{AllocError, Global};
use std::io;

/// An order that is followed: the calls that were told, the oldest first, the one that is asked for, and the names told so far of a
/// listing that has not ended.
#[derive(Debug, Drop)]
pub struct Turn {
    pub order: Order,
    pub told: Vec<Told>,
    pub asked: Option<Request>,
    pub listed: Vec<String>,
    /// How many of the calls that were told are reads.
    pub reads: usize,
    /// How far it is with its part.
    guard: Guard,
    /// How many parts were removed under its guard.
    removed: usize,
    // Whatever calls were before those told, all have led so far.
    ghost is_guarded: { HasGuard order told.items guard },
}

impl Turn {
    ghost use Rattle.std.specs.Prelude.{◌≡◌, ◌++◌, ◌∷◌, [], List, Some, None, IfOk, OnOk, OnErr, MatchOption, IfSome, map};
    ghost use Rattle.std.specs.String.{string_bytes};
    ghost use Rattle.folder_model.specs.Call.{Call};
    ghost use Rattle.folder_turns.specs.Calls.{answered};
    ghost use Rattle.folder_turns.specs.Orders.{matter_of};
    ghost use Rattle.folder_turns.specs.Steps.{OnAsks, OnEnds};
    ghost use Rattle.folder_turns.specs.Straying.{IfStrayed};
    ghost use Rattle.folder_turns.specs.Turns.{AsksInTurn, EndsSaying, IsAstray, IsSame, asking, state_of};

    /// A turn in which nothing was asked for yet.
    pub fn new(alloc: Global, order: Order) -> Turn
        ensures { state_of result ≡ record { task = order.task; matter = matter_of order; calls = []; asked = None; listed = [] } }
    {
        Turn {
            order,
            told: Vec::new(alloc),
            asked: None,
            listed: Vec::new(alloc),
            reads: 0,
            guard: Guard::Open,
            removed: 0,
        }
    }

    /// What its order asks for after the calls that were told, or what it has come to.
    fn step(&self, alloc: Global) -> Result<Step<io::Result<End>>, Fault>
        ghost before: { List Call }
        ensures in_turn { IfOk result (λ step. OnAsks step (λ request. AsksInTurn before (asking request self.now))) }
        ensures ends { IfOk result (λ step. OnEnds step (λ end. EndsSaying before (state_of self.now) end)) }
        ensures strays { IfStrayed result (IsAstray before (state_of self.now)) }
    {
        next(
            alloc,
            &self.order,
            self.order.bytes.as_slice(),
            self.told.as_slice(),
        )
    }

    /// What the order has come to; None if a call is asked for.
    pub fn go_on(&mut self, alloc: Global) -> Result<Option<io::Result<End>>, Fault>
        ghost before: { List Call }
        ensures same { IsSame (state_of self.new) (state_of self.old) }
        // The call that is asked for is in turn after those told.
        ensures in_turn { IfOk result (λ answer. answer ≡ None → AsksInTurn before (state_of self.new)) }
        // At the end none is asked for.
        ensures over { IfOk result (λ answer. IfSome answer (λ end. (state_of self.new).asked ≡ None)) }
        // What it has come to says of the calls told what the order says.
        ensures ends { IfOk result (λ answer. MatchOption answer (Unit {0}) (λ end. EndsSaying before (state_of self.new) end)) }
        // It strays only if a run of the order does: it ended before it had made all calls that were told, or it made another one.
        ensures strays { IfStrayed result (IsAstray before (state_of self.new)) }
    {
        let ahead = ahead_of(
            alloc,
            &self.order,
            self.told.as_slice(),
            self.reads,
            self.guard,
            self.removed,
        )?;
        if let Some(request) = ahead {
            self.asked = Some(request);
            return Ok(None);
        }
        match self.step(alloc)? {
            Step::Asks(request) => {
                self.asked = Some(request);
                Ok(None)
            }
            Step::Ends(end) => {
                self.asked = None;
                Ok(Some(end))
            }
        }
    }

    /// Tells what came of the call that is asked for. If none is, nothing is told.
    pub fn tell(&mut self, answer: Answer) -> Result<(), AllocError>
        ensures task { self.new.order ≡ self.old.order }
        ensures calls { OnOk result (MatchOption (state_of self.old).asked ((state_of self.new).calls ≡ (state_of self.old).calls) (λ call. (state_of self.new).calls ≡ answered call answer ++ (state_of self.old).calls)) }
        ensures lost { OnErr result ((state_of self.new).calls ≡ (state_of self.old).calls) }
        // Nothing is asked for then, and the names of a listing stay.
        ensures asked { (state_of self.new).asked ≡ None }
        ensures listed { self.new.listed ≡ self.old.listed }
    {
        match self.asked.take() {
            Some(request) => {
                let is_part = is_its_part(&self.order, &request, &answer);
                let guard = self.guard.after(&request, &answer, is_part);
                let reads = reads_with(self.reads, &request);
                let removed = removed_with(self.removed, self.guard, &request);
                let answer = remembered(&self.order, self.reads, answer);
                self.told.push(Told { request, answer })?;
                self.guard = guard;
                self.reads = reads;
                self.removed = removed;
                Ok(())
            }
            None => Ok(()),
        }
    }
}
