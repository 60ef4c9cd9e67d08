//! A wait for others that ends after ten seconds.
ghost use Rattle.std.specs.Prelude.{◌≡◌, ◌<◌, ◌≤◌, ◌+◌, ◌⊎◌, true, false};

use std::marker::Model;
use std::rt::Clock;
use std::time::{Duration, Instant};
use std::{io, thread};

/// How many milliseconds are waited, by the clock or by the sleeps together.
const LONGEST_WAIT: u64 = 10_000;

/// How many milliseconds one sleep takes at most; the first ones take 1, 2 and so on. All who wait try equally often, so none is starved
/// by those who come later.
const LONGEST_SLEEP: u64 = 10;

/// A wait for others that ends after ten seconds. It is seen as how many milliseconds of sleep are left, and how many milliseconds its
/// clock has told when that was read last.
#[derive(Drop)]
pub struct Patience {
    began: io::Result<Instant>,
    pause: u64,
    left: u64,
    told: u64,
}

impl Model for Patience {
    ghost use Rattle.std.specs.Prelude.{ℕ, ◌≤◌};

    ghost Value = { ℕ × ℕ };

    ghost view = { λ p. (p.left, p.told) };

    ghost invariant = { λ p. (1 ≤ p.pause) × (p.pause ≤ 10) };
}

impl Patience {
    /// A wait that begins now.
    pub fn new<R: Clock>(rt: &R) -> Patience
        ensures { result ≡ (10000, 0) }
    {
        Patience {
            began: Instant::now(rt),
            pause: 1,
            left: LONGEST_WAIT,
            told: 0,
        }
    }

    /// Sleeps a moment, and then answers true; false without a sleep once ten seconds are over.
    pub fn wait<R: Clock>(&mut self, rt: &R) -> bool
        // It gives up only once its clock has told ten seconds, or its sleeps have taken ten seconds together.
        ensures over { result ≡ false → (self.new.0 ≡ 0) ⊎ (10000 ≤ self.new.1) }
        // Less sleep is left after each wait. So whoever tries anew as long as it is true comes to an end.
        ensures less { result ≡ true → self.new.0 < self.old.0 }
        // One sleep takes ten milliseconds at most.
        ensures short { self.old.0 ≤ self.new.0 + 10 }
    {
        self.told = waited(&self.began, rt);
        if self.left == 0 || self.told >= LONGEST_WAIT {
            return false;
        }
        thread::sleep(rt, Duration::from_millis(self.pause));
        self.left = self.left.saturating_sub(self.pause);
        self.pause = self.pause.saturating_add(1).min(LONGEST_SLEEP);
        true
    }
}

/// How many milliseconds have gone since then; 0 if the clock can't be read.
fn waited<R: Clock>(began: &io::Result<Instant>, rt: &R) -> u64 {
    match began {
        Ok(began) => match began.elapsed(rt) {
            Ok(waited) => u64::try_from(waited.as_millis()).unwrap_or(u64::MAX),
            Err(_) => 0,
        },
        Err(_) => 0,
    }
}
