//! `imdrill [--every | --every-failure] [--settings] [--buffer N] [SCRIPT]`: runs a script of lives on a model disk and prints what they answer; or stops
//! its life everywhere, or has each of its calls fail, in one setting or in all, and prints how many openings after that were bad.
#![tactic(auto)]

use im_tool_script::drill_program;
use std::process::ExitCode;
use std::{env, io};

fn main(rt: HostRuntime) -> io::Result<ExitCode> {
    let words: Vec<String> = env::args(&rt)?.collect(rt.alloc())?;
    Ok(ExitCode::from(drill_program(&rt, &rt, &words)?))
}
