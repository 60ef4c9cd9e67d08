//! The next call that is asked for.
ghost use Rattle.std.specs.Prelude.{◌≡◌, List, true, IfOk};
ghost use Rattle.folder_model.specs.Call.{Call, can_settle};
ghost use Rattle.folder_model.specs.Parts.{Parts};
ghost use Rattle.folder_model.specs.Turn.{InTurn, AllInTurn};
ghost use Rattle.folder_turns.specs.Asking.{AsksAfter, GoesOnWhatever, IsInTurnWhatever, HasRunAstray};
ghost use Rattle.folder_turns.specs.Calls.{call_asked, calls_after};
ghost use Rattle.folder_turns.specs.Steps.{OnAsks, OnEnds};
ghost use Rattle.folder_turns.specs.Straying.{IfStrayed};

use crate::program::Program;
use crate::replay::{Fault, Replay};
use crate::request::Told;
use crate::script::Script;
use crate::step::Step;
use std::alloc::Global;
use std::marker::Brand;

/// Runs a program that puts these bytes, or none, over the calls that were told, the oldest first: the call that it asks for next, or
/// what it has come to. Nothing is remembered between two calls but what was told.
pub fn next<P: Program>(
    alloc: Global,
    program: &P,
    whole: &[u8],
    told: &[Told],
) -> Result<Step<P::Outcome>, Fault>
    ghost before: { List Call }
    // The call that is asked for is in turn after those told, if no sync of the folder has failed before.
    ensures in_turn { IfOk result (λ step. OnAsks step (AsksAfter (λ parts. P.may_run program.now parts before) whole.now before (calls_after whole.now told.now before))) }
    // Told with whatever answer, all calls are in turn, if no sync of the folder has failed by then.
    ensures whatever { IfOk result (λ step. OnAsks step (GoesOnWhatever (λ parts. P.may_run program.now parts before) whole.now before told.now)) }
    // What it has come to says of the calls told what the program says.
    ensures ends { IfOk result (λ step. OnEnds step (λ outcome. (parts : Parts) → can_settle before ≡ true → P.may_run program.now parts before → P.says program.now outcome parts before (calls_after whole.now told.now before))) }
    // It strays only if there is such a run: it ended before it had made all calls that were told, or it made another one.
    ensures strays { can_settle before ≡ true → IfStrayed result (HasRunAstray (P.may_run program.now) (P.says program.now) whole.now before (calls_after whole.now told.now before)) }
{
    run::<P, Brand>(alloc, program, whole, told)
}

/// The call that a program asks for next, or what it has come to, after the calls that a script has.
fn run<P: Program, S: Script>(
    alloc: Global,
    program: &P,
    whole: &[u8],
    told: &[Told],
) -> Result<Step<P::Outcome>, Fault>
    requires whole { whole.now ≡ S.whole }
    requires told { calls_after whole.now told.now S.before ≡ S.calls }
    requires settles { can_settle S.before ≡ true }
    ensures in_turn { IfOk result (λ step. OnAsks step (λ request. (parts : Parts) → AllInTurn parts S.before → P.may_run program.now parts S.before → InTurn parts S.calls (call_asked S.whole request))) }
    ensures whatever { IfOk result (λ step. OnAsks step (IsInTurnWhatever (λ parts. P.may_run program.now parts S.before) S.whole S.before S.calls)) }
    ensures ends { IfOk result (λ step. OnEnds step (λ outcome. (parts : Parts) → P.may_run program.now parts S.before → P.says program.now outcome parts S.before S.calls)) }
    ensures strays { IfStrayed result (HasRunAstray (P.may_run program.now) (P.says program.now) S.whole S.before S.calls) }
{
    let mut folder = Replay::<S>::new(alloc, whole, told);
    let outcome = program.run(alloc, &mut folder);
    folder.into_step(outcome)
}
