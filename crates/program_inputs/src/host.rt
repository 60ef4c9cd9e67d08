//! What the program needs of the system.

use std::fs::{File, Files};
use std::random::RandomSource;
use std::rt::Clock;

/// Standard streams, files, a clock, random words and memory.
pub trait Host: Print
    + Eprint
    + Input
    + Files<File = File>
    + Clock
    + RandomSource
    + AllocGlobal
    + Clone
    + Drop {}

impl<
    R: Print
        + Eprint
        + Input
        + Files<File = File>
        + Clock
        + RandomSource
        + AllocGlobal
        + Clone
        + Drop,
> Host for R {}
