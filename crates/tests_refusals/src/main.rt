//! Makes each call that may want memory, so that memory can be refused to it from outside: prints
//! where it is refused and what is left then, makes it again, and prints its answer.
#![tactic(auto)]

mod cases;
mod events;
mod inline_html;
mod labels;
mod lines;
mod no_memory;
mod printing;
mod stop;
mod tags;
mod texts;
mod trees;
mod unescaping;

use cases::run_cases;
use std::env;
use std::process::ExitCode;

fn main(rt: HostRuntime) -> ExitCode {
    let Ok(arguments) = env::args(&rt) else {
        return ExitCode::from(3);
    };
    let Ok(names) = arguments.skip(1).collect::<Vec<String>>(rt.alloc()) else {
        return ExitCode::from(3);
    };
    ExitCode::from(run_cases(rt.alloc(), &names, rt.stdout()))
}
