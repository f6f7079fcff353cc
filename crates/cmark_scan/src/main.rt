//! Runs a scanner of Markdown over standard input and prints what it answers.
#![tactic(auto)]

mod html;
mod label;
mod line;
mod printing;
pub mod program;
mod reading;
mod report;
#[cfg(test)]
mod tests;
mod unescaping;
mod words;

use program::run_program;
use program_faults::{Fault, report_fault};
use std::env;
use std::process::ExitCode;

fn main(rt: HostRuntime) -> ExitCode {
    let mut faults = rt.stderr();
    let Ok(arguments) = env::args(&rt) else {
        return ExitCode::from(report_fault(&mut faults, Fault::Read));
    };
    let Ok(texts) = arguments.skip(1).collect::<Vec<String>>(rt.alloc()) else {
        return ExitCode::from(report_fault(&mut faults, Fault::Memory));
    };
    let Ok(words) = texts
        .iter()
        .map(|text| text.as_str())
        .collect::<Vec<&str>>(rt.alloc())
    else {
        return ExitCode::from(report_fault(&mut faults, Fault::Memory));
    };
    ExitCode::from(run_program(
        rt.alloc(),
        &words,
        &mut rt.stdin(),
        &mut rt.stdout(),
        &mut faults,
    ))
}
