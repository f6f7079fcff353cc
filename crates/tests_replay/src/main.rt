//! Makes the calls that cases on standard input name, and prints where an answer isn't the one that
//! the case names.
#![tactic(auto)]

use std::process::ExitCode;
use tests_cases::replay::replay_cases;

fn main(rt: HostRuntime) -> ExitCode {
    ExitCode::from(replay_cases(
        rt.alloc(),
        &mut rt.stdin(),
        &mut rt.stdout(),
        &mut rt.stderr(),
    ))
}
