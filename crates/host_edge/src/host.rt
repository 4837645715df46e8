use std::fs::Files;
use std::io::Eprint;
use std::process::Processes;

/// What the machine asks of the runtime: files, programs, a line for each fault, and memory.
pub trait Host: Files + Processes + Eprint + AllocGlobal + Clone + Drop {}

impl<H: Files + Processes + Eprint + AllocGlobal + Clone + Drop> Host for H {}
