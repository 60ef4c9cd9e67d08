//! A double of a folder: random histories of two processes that run the code of the folder's protocol, over a folder in memory, with kills
//! in any call, calls that fail, files from outside and losses of power. After each step every claim that was once answered has to be held
//! in every state that a loss of power may leave, and each reading has to have what was answered before it.
//!
//!     folder_simulation [COUNT [FIRST]]     COUNT histories, 500 if left out, from this one on; one alone is told call by call
#![tactic(auto)]

mod calls;
mod chance;
mod claims;
mod disk;
mod judged;
mod losses;
mod process;
mod turning;
mod work;
mod world;

use std::process::ExitCode;
use std::{env, io};
use world::{Seen, World};

/// How many histories there are, if that is left out.
const HISTORIES: u64 = 500;

/// How many things happen in a history.
const LENGTH: usize = 120;

/// The number that an argument is, or this one.
fn number(argument: Option<String>, other: u64) -> u64 {
    match argument {
        Some(text) => text.as_str().parse().unwrap_or(other),
        None => other,
    }
}

/// Adds what one history has shown.
fn add(all: &mut Seen, one: &Seen) {
    all.calls = all.calls.saturating_add(one.calls);
    all.kills = all.kills.saturating_add(one.kills);
    all.losses = all.losses.saturating_add(one.losses);
    all.stored = all.stored.saturating_add(one.stored);
    all.removed = all.removed.saturating_add(one.removed);
    all.read = all.read.saturating_add(one.read);
    all.kept = all.kept.saturating_add(one.kept);
    all.judged = all.judged.saturating_add(one.judged);
}

/// One history: whether nothing is wrong with it.
fn one<R: Print + AllocGlobal>(
    rt: &R,
    seed: u64,
    is_told: bool,
    all: &mut Seen,
) -> io::Result<bool> {
    let mut world = World::new(rt.alloc(), seed, is_told);
    for _ in 0..LENGTH {
        if world.wrong.is_none() {
            world.happen()?;
        }
    }
    if world.wrong.is_none() {
        world.end()?;
    }
    add(all, &world.seen);
    if let Some(tale) = &world.tale {
        for line in tale.iter() {
            println!(rt; "{line}")?;
        }
    }
    match world.wrong {
        None => Ok(true),
        Some(wrong) => {
            println!(rt; "history {seed}: {wrong:?}")?;
            Ok(false)
        }
    }
}

/// As many histories, from this one on.
fn all<R: Print + AllocGlobal>(rt: &R, count: u64, first: u64) -> io::Result<bool> {
    let mut seen = Seen::new();
    let mut wrong = 0u64;
    for seed in first..first.saturating_add(count) {
        if !one(rt, seed, count == 1, &mut seen)? {
            wrong = wrong.saturating_add(1);
        }
    }
    println!(rt;
        "histories={count} wrong={wrong} calls={} kills={} losses={} stored={} removed={} read={} kept={} judged={}",
        seen.calls,
        seen.kills,
        seen.losses,
        seen.stored,
        seen.removed,
        seen.read,
        seen.kept,
        seen.judged
    )?;
    Ok(wrong == 0)
}

fn main(rt: HostRuntime) -> io::Result<ExitCode> {
    let mut arguments = env::args(&rt)?;
    let _ = arguments.next();
    let count = number(arguments.next(), HISTORIES);
    let first = number(arguments.next(), 0);
    let is_right = all(&rt, count, first)?;
    Ok(if is_right {
        ExitCode::SUCCESS
    } else {
        ExitCode::FAILURE
    })
}
