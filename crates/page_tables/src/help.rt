//! What the program says of itself.

/// What is written on standard error after the name of an option that is not known.
pub const USAGE: &str = "
usage: fillaqut tables [--check | --write] [--gfm] [--] [FILE ..]
       fillaqut tables -h | --help | --version
";

/// What `--version` prints.
pub const VERSION: &str = "fillaqut 0.2.0\n";

/// What `--help` prints.
pub const HELP: &str = "\
usage: fillaqut tables [--check | --write] [--gfm] [--] [FILE ..]
       fillaqut tables -h | --help | --version

Prints a page of Markdown with its tables laid out: columns as wide as their widest cell, their
contents aligned as the delimiter row says, with a pipe on each side; short rows are filled. Nothing
else of the page is changed.

With --check nothing is printed but FILE:LINE:COLUMN of the head of each table that is not laid out,
or would be too wide, and of each row of more cells than its table has columns, or of none. With
--write each file whose page changes is written over, and nothing is printed: its owner, its
permissions and all else of it stay, but for set-ID bits that the system takes away. While it is
written a copy of what it held is beside it, in a file of the name .FILE.N.old, which is on the disk
before and removed after: where the program is cut off, the copy has all of the old text, unless the
file has all of the old or of the new. A file whose bytes have changed since it was read is left as
it is, and so is one whose copy can't be made; where it can't be written the old text is written
back. Standard input is printed then. With both options nothing is written.

A table with such a row is left as it is, and so is one whose rows would be wider than 2000 columns
of a line, with their pipes and spaces: without --check standard error has FILE:LINE:COLUMN of the
row, or of the head. The tables of the page printed have the same cells in the same rows and
columns, aligned alike, and each that is not left is laid out: a page of which that would not be so
is left as it is, and standard error says so. Of a page that is not UTF-8 nothing is printed or
written, and standard error has its name and how many bytes stand before the first that is wrong.

Tables are those of GitHub Flavored Markdown: --gfm, which the other commands take, changes nothing.

FILE is a page; - is standard input, and so is no FILE. What is printed of the pages follows one
another. After the word -- all words are files.

A page is read whole before anything is done with it. Where a page can't be read, is not UTF-8,
memory is refused or a file is not written over, the program says why on standard error and goes on
with the next page. Where the output can't be written it stops, and says why unless the reader of
the output has left.

In a name that is printed a tab, a line feed and a carriage return are \\t, \\n and \\r, and another
control character is \\u{CODE} with its code in hexadecimal digits.

The status is 0 where all is done, 1 where --check has printed anything, 2 for an option that is not
known, and 3 where a page is not done.
";
