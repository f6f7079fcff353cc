//! Reads pages of Markdown, and does with them what the first word says.
#![tactic(auto)]

mod commands;
mod help;
mod page_files;
mod replaced_files;

use commands::{Command, command_named};
use help::{HELP, USAGE, VERSION};
use page_files::PageFiles;
use page_programs::program::print_text;
use page_programs::streams::{Outputs, Streams};
use page_programs::values::join_values;
use program_faults::{StepWriter, complain};
use std::alloc::{AllocError, Global};
use std::env;
use std::io::{self, ErrorKind, Stderr, Stdin, Stdout};
use std::process::ExitCode;

const OUT_OF_MEMORY: &str = "fillaqut: out of memory\n";

// Statuses: a word that is not known, and what is not done.
const UNKNOWN: u8 = 2;

const NOT_DONE: u8 = 3;

// What is said where the arguments can't be had.
fn words_fault(error: io::Error) -> &'static str {
    match error.kind() {
        ErrorKind::OutOfMemory => OUT_OF_MEMORY,
        _ => "fillaqut: a word of the command line is not UTF-8\n",
    }
}

// Says why it stops before it reads a page.
fn stop<V: StepWriter>(faults: &mut V, why: &str) -> u8 {
    complain(faults, why);
    NOT_DONE
}

// The arguments.
fn words_of<'a>(alloc: Global, texts: &'a [String]) -> Result<Vec<&'a str>, AllocError> {
    texts
        .iter()
        .map(|text| text.as_str())
        .collect::<Vec<&str>>(alloc)
}

// The streams of the program.
type Host<'a> = Streams<Stdin, PageFiles<'a>, Stdout, Stderr>;

// Runs a command on the arguments after it.
fn run_named(
    rt: &HostRuntime,
    command: Command,
    texts: &[String],
    streams: &mut Host<'_>,
) -> Result<u8, AllocError> {
    let alloc = rt.alloc();
    let texts = join_values(alloc, texts)?;
    let arguments = words_of(alloc, &texts)?;
    Ok(match command {
        Command::Html => page_html::program::run_program(alloc, &arguments, streams),
        Command::Events(form) => {
            page_events::program::run_program(alloc, form, &arguments, streams)
        }
        Command::Blocks => page_blocks::program::run_program(alloc, &arguments, streams),
        Command::Inlines => page_inlines::program::run_program(alloc, &arguments, streams),
        Command::Links => {
            page_links::program::run_program(alloc, &PageFiles(rt), &arguments, streams)
        }
        Command::Tables => page_tables::program::run_program(alloc, &arguments, streams),
    })
}

// What is answered to a first word that is no command.
fn answer(word: &str, streams: &mut Host<'_>) -> u8 {
    if word == "-h" || word == "--help" {
        return print_text(&mut streams.outputs, HELP);
    }
    if word == "--version" {
        return print_text(&mut streams.outputs, VERSION);
    }
    let faults = &mut streams.outputs.faults;
    complain(faults, "fillaqut: unknown command ");
    complain(faults, word);
    complain(faults, "\n");
    complain(faults, USAGE);
    UNKNOWN
}

// Does what the arguments ask for, and answers the status.
fn run(rt: &HostRuntime, texts: &[String], streams: &mut Host<'_>) -> u8 {
    let Some((first, rest)) = texts.split_first() else {
        complain(&mut streams.outputs.faults, USAGE);
        return UNKNOWN;
    };
    let Some(command) = command_named(first.as_str()) else {
        return answer(first.as_str(), streams);
    };
    match run_named(rt, command, rest, streams) {
        Ok(status) => status,
        Err(_) => stop(&mut streams.outputs.faults, OUT_OF_MEMORY),
    }
}

fn main(rt: HostRuntime) -> ExitCode {
    let mut streams = Streams {
        input: rt.stdin(),
        outputs: Outputs {
            files: PageFiles(&rt),
            output: rt.stdout(),
            faults: rt.stderr(),
        },
    };
    let arguments = match env::args(&rt) {
        Ok(arguments) => arguments,
        Err(error) => {
            return ExitCode::from(stop(&mut streams.outputs.faults, words_fault(error)));
        }
    };
    let Ok(texts) = arguments.skip(1).collect::<Vec<String>>(rt.alloc()) else {
        return ExitCode::from(stop(&mut streams.outputs.faults, OUT_OF_MEMORY));
    };
    ExitCode::from(run(&rt, &texts, &mut streams))
}
