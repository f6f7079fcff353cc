//! The commands, by the first word of the command line.

use page_events::page::EventForm;

/// What is done with the pages.
#[derive(Clone, Copy)]
pub(crate) enum Command {
    Html,
    Events(EventForm),
    Blocks,
    Inlines,
    Links,
    Tables,
}

const COMMANDS: [(&str, Command); 7] = [
    ("html", Command::Html),
    ("events", Command::Events(EventForm::Words)),
    ("json", Command::Events(EventForm::Json)),
    ("blocks", Command::Blocks),
    ("inlines", Command::Inlines),
    ("links", Command::Links),
    ("tables", Command::Tables),
];

/// The command of this name.
pub(crate) fn command_named(word: &str) -> Option<Command> {
    for (name, command) in COMMANDS {
        if word == name {
            return Some(command);
        }
    }
    None
}
