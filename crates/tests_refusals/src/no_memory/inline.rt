//! Scanners of inline text, and what the calls that may want memory answer without it.
ghost use Rattle.std.specs.Prelude.{◌<◌, length};

use crate::inline_html::{Around, scan_tag};
use crate::labels::label;
use crate::printing::{print, print_made_two, print_ready, print_three, print_two};
use crate::stop::Stop;
use crate::texts::Text;
use crate::unescaping::{AMPERSAND, unescaped};
use markdown_scanners_tree::scanners::{
    HtmlBlockKind, ends_html_block, scan_autolink, scan_autolink_bytes, scan_entity,
    scan_html_block_start, scan_html_type_7, scan_link_dest, scan_link_dest_ahead,
    scan_link_dest_bytes, scan_link_title, scan_reference_definition,
    scan_reference_definition_ahead, scan_separated_title, scan_table_head, scan_wikilink_pipe,
    scan_wikilink_pipe_bytes, starts_html_block_type_6,
};
use std::alloc::Global;
use std::io::Stdout;

pub(crate) fn run(alloc: Global, output: Stdout) -> Result<(), Stop> {
    print_ready(output)?;
    references(output)?;
    links(output)?;
    links_of_bytes(output)?;
    reference_definitions(output)?;
    scans_ahead(output)?;
    html_blocks(output)?;
    tags(alloc, output)?;
    unchanged(alloc, output)?;
    labels(alloc, output)
}

fn references(output: Stdout) -> Result<(), Stop> {
    print_reference(output, b"&#x1F354;")?;
    print_reference(output, b"&amp;")?;
    print_reference(output, b"&#12345678;")
}

fn print_reference(output: Stdout, bytes: &[u8]) -> Result<(), Stop>
    requires { 0 < length bytes.now }
{
    let (length, text) = scan_entity(bytes, &AMPERSAND);
    print(output, (length, text.map(Text)))
}

fn links(output: Stdout) -> Result<(), Stop> {
    print_two(
        output,
        scan_wikilink_pipe("a|b]]", 0, 3),
        scan_link_dest("((a))", 0, 1),
    )?;
    print_two(
        output,
        scan_link_dest("(((a)))", 0, 1),
        scan_autolink("https://a.b>", 0),
    )
}

fn links_of_bytes(output: Stdout) -> Result<(), Stop> {
    print_three(
        output,
        scan_wikilink_pipe_bytes(b"a|b]]", 3),
        scan_link_dest_bytes(b"((a)) b", 1),
        scan_autolink_bytes(b"https://a.b>"),
    )?;
    print_two(
        output,
        scan_link_title(b"'a\n\\'b' c"),
        scan_link_title(b"(a\n\nb)"),
    )
}

fn reference_definitions(output: Stdout) -> Result<(), Stop> {
    print_three(
        output,
        scan_reference_definition(b"[a]: <b>\n'c'\n", 1),
        scan_reference_definition(b"[a]: b 'c' d", 1),
        scan_separated_title(b"a \n'b'", 1),
    )
}

fn scans_ahead(output: Stdout) -> Result<(), Stop> {
    print_two(
        output,
        scan_link_dest_ahead(b"https://a.b/c/d/e/f g", 1),
        scan_reference_definition_ahead(b"[a]: https://a.b/c/d/e/f 'g'\n", 1),
    )
}

fn html_blocks(output: Stdout) -> Result<(), Stop> {
    print_two(
        output,
        starts_html_block_type_6(b"DIV>"),
        scan_html_type_7(b"<a b=\t'c'>  \n"),
    )?;
    print_html(output, b"<PRE>")?;
    print_html(output, b"a --> b")?;
    print_html(output, b"</td/>")?;
    print_html(output, b"<b c> \n")?;
    print_two(
        output,
        HtmlBlockKind::Comment.ends_before_blank(),
        HtmlBlockKind::TagAlone.ends_before_blank(),
    )
}

fn tags(alloc: Global, output: Stdout) -> Result<(), Stop> {
    print_made_two(
        output,
        scan_tag(alloc, Around::Nothing, b"<foo bar>"),
        scan_tag(alloc, Around::Nothing, b"</a\n>"),
    )?;
    print_made_two(
        output,
        scan_tag(alloc, Around::Quote, b"<a\nb\nc>"),
        scan_tag(alloc, Around::Quote, b"</a\n\n> >"),
    )
}

// The kind of the HTML block that begins there, by its number, and whether the line ends a comment,
// and a block with a name.
fn print_html(output: Stdout, bytes: &[u8]) -> Result<(), Stop> {
    let kind = scan_html_block_start(bytes);
    let kind = kind.and_then(|kind| HtmlBlockKind::from_number(kind.number()));
    let comment = ends_html_block(bytes, HtmlBlockKind::Comment);
    let named = ends_html_block(bytes, HtmlBlockKind::BlockName);
    print(output, (kind, comment, named))
}

fn unchanged(alloc: Global, output: Stdout) -> Result<(), Stop> {
    print_made_two(
        output,
        unescaped(alloc, "plain & simple", true),
        scan_table_head(alloc, b"| a |"),
    )
}

fn labels(alloc: Global, output: Stdout) -> Result<(), Stop> {
    print_made_two(output, label(alloc, "a\\ ]"), label(alloc, " a b ]"))?;
    print_made_two(output, label(alloc, "a  b"), label(alloc, "a\n\nb]"))
}
