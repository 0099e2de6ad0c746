//! The words of a command line.

use std::alloc::AllocGlobal;
use std::env::Env;
use std::{env, io};

/// The words of the command line, the program's name first. An error where one is no text, or memory is refused.
pub fn arguments_of<R: Env + AllocGlobal>(rt: &R) -> io::Result<Vec<String>> {
    let words = env::args(rt)?.collect(rt.alloc())?;
    Ok(words)
}
