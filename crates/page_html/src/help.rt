//! What the program says of itself.

/// What is written on standard error after the name of an option that is not known.
pub const USAGE: &str = "
usage: fillaqut html [--unsafe] [--strict] [--to html|events|json] [-e NAME].. [--gfm] [--] [FILE ..]
       fillaqut html -h | --help | --version
";

/// What `--version` prints.
pub const VERSION: &str = "fillaqut 0.2.0\n";

/// What `--help` prints.
pub const HELP: &str = "\
usage: fillaqut html [--unsafe] [--strict] [--to html|events|json] [-e NAME].. [--gfm] [--] [FILE ..]
       fillaqut html -h | --help | --version

Prints the HTML of a page of Markdown, by CommonMark 0.31.2 and as its examples write it, but safe
for pages by people who are not trusted: raw HTML is written as text, links and images lead to
addresses of http, https, mailto and tel, and to relative ones, and any other address is left out;
links say rel=\"nofollow noopener\".

  --unsafe         for text of one's own: raw HTML is written as it stands, and links and images
                   lead anywhere
  --strict         prints nothing of a page that is not UTF-8; its HTML has U+FFFD otherwise in
                   place of each part of the page that is wrong, as the decoder of the Encoding
                   standard
  --to html        prints HTML, as where nothing is asked for
  --to events      prints the events of the page in place of HTML, as fillaqut events does
  --to json        prints them as JSON, as fillaqut json does
  -e NAME          reads pages with an extension, which is one of

    tables         tables of GitHub Flavored Markdown
    strikethrough  text between tildes is struck through, as there
    tasks          list items that begin with a box, as there
    wikilinks      links in two pairs of brackets

  --gfm            the same as -e tables -e strikethrough -e tasks

An option and its value may be one word, as --to=json and -etables.

Of a page that is not UTF-8 no event is printed, since the bytes of the page are counted, nor any
HTML with --strict. Standard error has its name and how many bytes stand before the first that is
wrong.

FILE is a page; - is standard input, and so is no FILE. What is printed of the pages follows one
another. After the word -- all words are files.

A page is read whole before anything is printed of it. Where a page can't be read, is refused, or
memory is, the program says why on standard error and goes on with the next page. Where the output
can't be written it stops, and says why unless the reader of the output has left.

In a name on standard error a tab, a line feed and a carriage return are \\t, \\n and \\r, and another
control character is \\u{CODE} with its code in hexadecimal digits.

The status is 0 where all is printed, 2 for an option that is not known, and 3 where a page is not
printed.
";
