//! What the program says of itself.
ghost use Rattle.std.specs.Prelude.{◌≡◌};
ghost use Rattle.page_events.specs.Texts.{help_of, usage_of};

use crate::page::EventForm;

/// What is written on standard error after the name of an option that is not known.
pub const USAGE: &str = "
usage: fillaqut events [-e NAME].. [--gfm] [--] [FILE ..]
       fillaqut events -h | --help | --version
";

/// The same of the command that prints events as JSON.
pub const JSON_USAGE: &str = "
usage: fillaqut json [-e NAME].. [--gfm] [--] [FILE ..]
       fillaqut json -h | --help | --version
";

/// What `--version` prints.
pub const VERSION: &str = "fillaqut 0.2.0\n";

/// What `--help` prints.
pub const HELP: &str = "\
usage: fillaqut events [-e NAME].. [--gfm] [--] [FILE ..]
       fillaqut events -h | --help | --version

Prints a line for each event of a page of Markdown, in order: how many bytes of the page stand
before its source, how many before what follows that, and what it is. An element has two events, its
start and its end, with the same numbers; what it holds stands between them.

  start ELEMENT    an element begins
  end ELEMENT      the element that began last, and has not ended, ends
  text TEXT        text, or a line of code; escapes and references are resolved
  code TEXT        a code span
  html TEXT        a line of an HTML block
  inline html TEXT raw HTML in a line
  soft break       a soft line break
  hard break       a hard line break
  rule             a thematic break
  checked task     the marker of a task list item of GitHub Flavored Markdown, where -e tasks asks
  unchecked task   for them; after it stands what the item's first paragraph has besides

An element is one of

  paragraph        a paragraph; one of a tight list has no events of its own
  heading LEVEL    a heading
  block quote      a block quote
  code block       a code block; its start has the info string after it, if the block is fenced
  html block       an HTML block
  list             a list; if it is ordered its start has the number of the first item after it
  item             a list item
  table            a table of GitHub Flavored Markdown, where -e tables asks for it; its start has
                   the alignment of each column after it: none, left, center or right
  table head       the header row of a table; what it holds are cells
  table row        another row
  table cell       a cell
  emphasis         emphasis
  strong           strong emphasis
  strikethrough    text that is struck through, where -e strikethrough asks for it
  link             a link or an image; its start has after it how it is written, its destination,
  image              its title, and of a reference the label: it is written inline, reference,
                     collapsed, shortcut, autolink, email, wikilink or piped wikilink, the last two
                     where -e wikilinks asks for them

  -e NAME          reads pages with an extension, which is one of

    tables         tables of GitHub Flavored Markdown
    strikethrough  text between tildes is struck through, as there
    tasks          list items that begin with a box, as there
    wikilinks      links in two pairs of brackets

  --gfm            the same as -e tables -e strikethrough -e tasks

An option and its value may be one word, as -etables.

Texts, info strings, labels, destinations and titles stand in quotation marks. Each byte of them
that is a quotation mark, a backslash or not printable ASCII is printed as \\u00 and two hexadecimal
digits.

FILE is a page; - is standard input, and so is no FILE. The lines of the pages follow one another,
and the bytes of each page are counted from its front. After the word -- all words are files.

A page is read whole before its lines are printed. Of one that is not UTF-8 nothing is printed, and
standard error has its name and how many bytes stand before the first that is wrong. Where a page
can't be read, is not UTF-8, or memory is refused, the program says why on standard error and goes
on with the next page. Where the output can't be written it stops, and says why unless the reader of
the output has left.

In a name on standard error a tab, a line feed and a carriage return are \\t, \\n and \\r, and another
control character is \\u{CODE} with its code in hexadecimal digits.

The status is 0 where all is printed, 2 for an option that is not known, and 3 where a page is not
printed.
";

/// What `--help` prints of the command that prints events as JSON.
pub const JSON_HELP: &str = "\
usage: fillaqut json [-e NAME].. [--gfm] [--] [FILE ..]
       fillaqut json -h | --help | --version

Prints each event of a page of Markdown, in order, as a JSON object on a line of its own: the events
that fillaqut events prints, each with its range. An element has two events, its start and its end,
with the same range; what it holds stands between them.

All objects have three members: kind, which is start, end, text, code, html, inline html, soft
break, hard break, rule or task; start, how many bytes of the page stand before the event's source;
and end, how many before what follows that. After them come

  text             of a text, code or HTML
  checked          of a task: true or false
  element          of a start and an end: the element, as the help of fillaqut events names it
  level            of both of a heading
  first            of the start of an ordered list: the number of its first item
  info             of the start of a fenced code block: the info string
  columns          of the start of a table: an array of none, left, center and right
  type             of the start of a link or an image: how it is written, as that help has it
  destination      of the same: where it leads, and its title
  title
  label            of the same, where it is a reference

  -e NAME          reads pages with an extension, which is one of

    tables         tables of GitHub Flavored Markdown
    strikethrough  text between tildes is struck through, as there
    tasks          list items that begin with a box, as there
    wikilinks      links in two pairs of brackets

  --gfm            the same as -e tables -e strikethrough -e tasks

An option and its value may be one word, as -etables.

FILE is a page; - is standard input, and so is no FILE. The objects of the pages follow one another,
and the bytes of each page are counted from its front. After the word -- all words are files.

A page is read whole before its objects are printed. Of one that is not UTF-8 nothing is printed,
and standard error has its name and how many bytes stand before the first that is wrong. Where a
page can't be read, is not UTF-8, or memory is refused, the program says why on standard error and
goes on with the next page. Where the output can't be written it stops, and says why unless the
reader of the output has left.

In a name on standard error a tab, a line feed and a carriage return are \\t, \\n and \\r, and another
control character is \\u{CODE} with its code in hexadecimal digits.

The status is 0 where all is printed, 2 for an option that is not known, and 3 where a page is not
printed.
";

// How the command is used that prints events in this form.
pub(crate) fn usage_of(form: EventForm) -> &'static str
    ensures { result.now ≡ usage_of form }
{
    match form {
        EventForm::Words => USAGE,
        EventForm::Json => JSON_USAGE,
    }
}

// The help of that command.
pub(crate) fn help_of(form: EventForm) -> &'static str
    ensures { result.now ≡ help_of form }
{
    match form {
        EventForm::Words => HELP,
        EventForm::Json => JSON_HELP,
    }
}
