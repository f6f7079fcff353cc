//! What the program says of itself.

/// What is written on standard error after the name of an option that is not known.
pub const USAGE: &str = "
usage: fillaqut blocks [--json] [-e NAME].. [--gfm] [--] [FILE ..]
       fillaqut blocks -h | --help | --version
";

/// What `--version` prints.
pub const VERSION: &str = "fillaqut 0.2.0\n";

/// What `--help` prints.
pub const HELP: &str = "\
usage: fillaqut blocks [--json] [-e NAME].. [--gfm] [--] [FILE ..]
       fillaqut blocks -h | --help | --version

Prints a line for each block of a page of Markdown: the number of its first line, the number of
its last line, how many containers it is in, and its kind. Before it comes a line for each
container that begins in its first line, outermost first, with the number of that line twice. A
list has a line where it is shown to have ended: before the lines of what shows it, or last.

  blank            blank lines in a row
  break            a thematic break
  heading LEVEL    an ATX heading
  setext LEVEL     a setext heading
  indented         indented code
  fenced COUNT C INFO
                   fenced code: the length of its fence, the byte that the fence is made of, and
                   the info string, unless it is empty; each byte of the info string that is a
                   quotation mark, a backslash or not printable ASCII is printed as \\u00 and two
                   hexadecimal digits
  html NUMBER      an HTML block, by the number of its start condition
  table COLUMNS    a table, where -e tables asks for them
  definition       a link reference definition
  paragraph        a paragraph, with its lazy continuation lines
  quote            a block quote
  item C START     a list item: its bullet or delimiter, and the number that it starts at
  footnote         a footnote definition, where -e footnotes asks for them
  term_definition  a definition of the term before it, where -e definition-lists asks for them
  list C START tight
  list C START loose
                   a list: the bullet or delimiter of its items, the number that it starts at, and
                   whether it is tight or loose; its last line is that of its last block

FILE is a page; - is standard input, and so is no FILE. The lines of the pages follow one another,
and the lines of each page are counted from 1. After the word -- all words are files.

With --json each line is an object. Its members are first, last, depth and kind, as above; of blocks
and containers offset, how many bytes of the page stand before the first line, and column, the byte
of that line that the text or the marker begins with, counted from 1; of a block bytes, how many
bytes its lines have; level of a heading; count, fence and info of fenced code; condition of an HTML
block; columns of a table; label, destination and, if there is one, title of a definition, as they
are written, without what stands around them; delimiter and start of an item or a list; tight of a
list; and indent of an item or a term_definition, by how many columns its text is indented from the
container around it.
Where info, label, destination or title is not UTF-8, each part of it that isn't is U+FFFD, and
info_bytes, label_bytes, destination_bytes or title_bytes has two hexadecimal digits for each of its
bytes.

Where a container ends there is an object of the kind end: last is its last line, depth how many
containers are around it, and end how many bytes of the page stand before what follows it. Where two
or more files are named, an object of one member, page, has the name of each before its other ones.

  -e NAME             reads pages with an extension, which is one of

    tables            tables of GitHub Flavored Markdown
    footnotes         a line that begins with [^, a label and ]: begins a footnote definition, as on
                      GitHub: a container of what follows on that line, and of the lines that are
                      indented by four columns
    strikethrough     is taken, and changes no block
    tasks             is taken, and changes no block
    definition-lists  a paragraph is a term where a line that begins with : follows it, at once or
                      after one blank line. That line begins a definition of it: a container of what
                      follows on that line, and of the lines that are indented as that is. Further
                      definitions of the term may follow
    wikilinks         is taken, and changes no block

  --gfm               the same as -e tables -e strikethrough -e tasks

An option and its value may be one word, as -etables.

Together the blocks contain every line of the page.

A table may begin with a later line of a paragraph, which then ends before it: its header row is
whatever line goes on with the paragraph, also one that is indented, lazy, or like 2. a|b. The
delimiter row and the rows after it stand in the containers by themselves.

Lines are printed while a page is read, and its bytes need not be UTF-8. Where a page can't be read
or memory is refused, the program says why on standard error and goes on with the next page; the
lines of the first blocks of that page may be printed. Where the output can't be written it stops,
and says why unless the reader of the output has left.

In a name on standard error a tab, a line feed and a carriage return are \\t, \\n and \\r, and another
control character is \\u{CODE} with its code in hexadecimal digits.

The status is 0 where all is printed, 2 for an option that is not known, and 3 where a page is not
printed.
";
