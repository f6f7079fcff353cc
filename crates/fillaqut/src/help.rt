//! What the program says of itself.

/// Its name and version.
pub(crate) const VERSION: &str = "fillaqut 0.2.0\n";

/// How it is called.
pub(crate) const USAGE: &str = "\
usage: fillaqut html|events|json|blocks|inlines|links|tables [OPTION ..] [--] [FILE ..]
       fillaqut -h | --help | --version
";

/// The help.
pub(crate) const HELP: &str = "\
usage: fillaqut COMMAND [OPTION ..] [--] [FILE ..]
       fillaqut COMMAND --help
       fillaqut -h | --help | --version

Reads pages of Markdown, and does with them what the command says:

  html      prints their HTML, safe for pages by people who are not trusted; with --unsafe all of it
  events    prints the events of pages, one per line, each with its range
  json      prints the events as JSON, one object per line
  blocks    prints the blocks of pages
  inlines   prints the inlines of each heading and paragraph
  links     prints the links of pages, and what is wrong with their labels; with --check what is
            wrong alone, also with destinations
  tables    prints pages with their tables laid out, or lays them out in their files

FILE is a page; - is standard input, and so is no FILE. `fillaqut COMMAND --help` says the rest, and
which status is answered. The status is 2 for a command that is not known.
";
