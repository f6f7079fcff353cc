//! What the program says of itself.

/// What is written on standard error after the name of an option that is not known.
pub const USAGE: &str = "
usage: fillaqut links [--json] [--check] [--root DIR] [-e NAME].. [--gfm] [--] [FILE ..]
       fillaqut links -h | --help | --version
";

/// What `--version` prints.
pub const VERSION: &str = "fillaqut 0.2.0\n";

/// What `--help` prints.
pub const HELP: &str = "\
usage: fillaqut links [--json] [--check] [--root DIR] [-e NAME].. [--gfm] [--] [FILE ..]
       fillaqut links -h | --help | --version

Prints a line for each link, image and autolink of a page of Markdown, in order:

  FILE:LINE:COLUMN: link HOW \"DESTINATION\" \"TITLE\"
  FILE:LINE:COLUMN: image HOW \"DESTINATION\" \"TITLE\" \"LABEL\"

FILE is as it stands on the command line. LINE and COLUMN are where it begins, both counted from 1:
a column is a byte, as for most compilers, and a byte order mark has none. HOW is one of

  inline           the destination stands beside the text
  reference        the text and a label; the definition of that label has the destination
  collapsed        the text is the label, and empty brackets follow
  shortcut         the text is the label
  autolink         an address in angle brackets
  email            an e-mail address in angle brackets
  wikilink         a target in two brackets, where -e wikilinks asks for them
  piped wikilink   the same with a text of its own

LABEL is that of a reference, and says which definition it uses; of others it is left out. The
destination and the title are what is meant by their backslash escapes and character references.
All three stand in quotation marks. Each byte of them that is a quotation mark, a backslash or not
printable ASCII is printed as \\u00 and two hexadecimal digits.

After the links come the labels that are wrong, at the references that use them, and then at the
definitions:

  FILE:LINE:COLUMN: label not defined \"LABEL\"      it has no definition
  FILE:LINE:COLUMN: label defined before \"LABEL\"   it has one before, and this one is passed over
  FILE:LINE:COLUMN: label not used \"LABEL\"         no link uses it

Of labels that have no definition only [text][LABEL] and [LABEL][] are printed, as they would be
links if all labels were defined: [LABEL] alone is ordinary text in most pages. Nothing is printed
of a label that begins with ^, which is that of a footnote on GitHub, nor of a definition of the
label //, which is a comment.

  --json           prints each line as a JSON object: file, line and column; of a link start and
                   end, the bytes of the page before it and before what follows it, element, which
                   is link or image, type, which is HOW, destination, title and label; of a label
                   fault and text
  --check          prints only what is wrong, and no links: the labels, and then the links that lead
                   nowhere, those of raw HTML after all others; as no such file \"DESTINATION\" where
                   that is relative and its file is not there, as permission denied \"DESTINATION\"
                   where a folder on the way to it may not be searched, or its page not be read, as
                   can't be read \"DESTINATION\" where its page can't be for another reason, and as no
                   such heading \"DESTINATION\" where that has a #FRAGMENT that no heading and no raw
                   HTML of its page makes, and not #top, the front of the page
  --root DIR       with --check, looks in DIR for destinations that begin with one slash
  -e NAME          reads pages with an extension, which is one of

    tables         tables of GitHub Flavored Markdown
    strikethrough  text between tildes is struck through, as there
    tasks          list items that begin with a box, as there
    wikilinks      links in two pairs of brackets

  --gfm            the same as -e tables -e strikethrough -e tasks

An option and its value may be one word, as -etables and --root=DIR.

A relative destination leads from the folder of its page, and where --root is given one with a slash
at the front from DIR, which is put before it; both without their query and fragment, and with their
percent-encoded bytes decoded. Destinations with a scheme or two slashes at the front, or one and no
--root, autolinks and wikilinks are not looked for, and the network is never asked.

A #FRAGMENT alone is one of the page itself. One after the name of a page of Markdown, a file that
ends in .md or .markdown, is one of that page, which is read in the same way, and once for each page
that leads to it; what is not UTF-8 in it is U+FFFD. Those of other files are not looked for. A
heading makes the fragment that it makes on GitHub: its text, without that of images, in lower case,
each space a hyphen, and no other characters but alphabetic ones, marks, digits, hyphens and
underscores; one that was made before has -1 after it, then -2, and so on. Raw HTML makes the id of
each element and the name of each <a>, and its links and images are the href of each <a> and the src
of each <img>. Its tags are read as browsers read them, with their character references decoded, and
a link begins where its tag does.

FILE is a page; - is standard input, and so is no FILE. The lines of the pages follow one another.
After the word -- all words are files.

A page is read whole before its lines are printed. Of one that is not UTF-8 nothing is printed, and
standard error has its name and how many bytes stand before the first that is wrong. Where a page
can't be read, is not UTF-8, or memory is refused, the program says why on standard error and goes
on with the next page. Where the output can't be written it stops, and says why unless the reader of
the output has left.

In a name, but as JSON, a tab, a line feed and a carriage return are \\t, \\n and \\r, and another
control character is \\u{CODE} with its code in hexadecimal digits.

The status is 0 where all is printed, 1 where --check has printed anything, 2 for an option that is
not known, and 3 where a page is not printed or checked.
";
