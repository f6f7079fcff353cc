//! What the program says of itself.

/// What is written on standard error after the name of an option that is not known.
pub const USAGE: &str =
    "\nusage: fillaqut inlines [-e NAME].. [--gfm] [--] [FILE ..]\n       fillaqut inlines -h | --help | --version\n";

/// What `--version` prints.
pub const VERSION: &str = "fillaqut 0.2.0\n";

/// What `--help` prints.
pub const HELP: &str = "\
usage: fillaqut inlines [-e NAME].. [--gfm] [--] [FILE ..]
       fillaqut inlines -h | --help | --version

Prints a line for each heading and paragraph of a page of Markdown, as fillaqut blocks does: the
number of its first line, the number of its last line, how many containers it is in, and its kind.
After it comes a line for each of its inlines, in order, with two spaces before it: how many bytes
of the page stand before it, how many before what follows it, what it is, and its source in
quotation marks.

  text             text; a bracket or a delimiter that is part of nothing else has a line of its own
  escape           a backslash and the punctuation that it escapes
  reference        a character reference
  code             a code span, with its backticks
  uri              an absolute URI in angle brackets
  email            an email address in angle brackets
  html             raw HTML
  hard break       a hard line break, with the spaces around it
  soft break       a soft line break, with the spaces around it
  start emphasis   the delimiters before emphasis
  start strong     the delimiters before strong emphasis
  end emphasis     the delimiters after it
  end strong
  start link       the bracket before the text of a link, and where the link leads: one of
  start image        inline DESTINATION TITLE
                     full LABEL
                     collapsed LABEL
                     shortcut LABEL
                     wikilink TARGET, where wikilinks are asked for
                   as they are written, each in quotation marks, TITLE if there is one, and the
                   label of a full reference with its brackets
  end link         what stands after the text of a link or an image, from its bracket on
  start strikethrough
                   the tildes before a text that is struck through, where that is asked for
  end strikethrough
                   the tildes after it

Of the source each byte that is a quotation mark, a backslash or not printable ASCII is printed as
\\u00 and two hexadecimal digits. Where it stands in several lines, what belongs to their containers
and the spaces before their text are no part of it.

The labels of references are those that the page defines, wherever it does so.

  -e NAME             reads pages with an extension, which is one of

    tables            tables of GitHub Flavored Markdown, whose cells are left out
    footnotes         footnote definitions, as fillaqut blocks has them
    strikethrough     text between tildes is struck through, as on GitHub
    tasks             is taken, and changes nothing that is printed
    definition-lists  definitions of terms, as fillaqut blocks has them
    wikilinks         links in two pairs of brackets

  --gfm               the same as -e tables -e strikethrough -e tasks

An option and its value may be one word, as -etables.

FILE is a page; - is standard input, and so is no FILE. The lines of the pages follow one another,
and the lines and bytes of each page are counted from its front. After the word -- all words are
files.

A page is read whole before its lines are printed. Of one that is not UTF-8 nothing is printed, and
standard error has its name and how many bytes stand before the first that is wrong. Where a page
can't be read, is not UTF-8, or memory is refused, the program says why on standard error and goes
on with the next page. Where the output can't be written it stops, and says why unless the reader of
the output has left.

In a name on standard error a tab, a line feed and a carriage return are \\t, \\n and \\r, and another
control character is \\u{CODE} with its code in hexadecimal digits.

The status is 0 where all is printed, 2 for an option that is not known, and 3 where a page is not
printed.
";
