//! Tests of `parser_uses::comments`: the HTML that cmark writes, with `rel` in its links.
use crate::asserts::assert_text;
use parser_uses::comments::comment_html;

// cmark leaves the address empty too, and has the same of `\<b>c\</b>`.
#[test]
fn comments_have_no_scripts_and_no_html(rt: HostRuntime) {
    assert_text(
        &rt,
        comment_html(rt.alloc(), "[a](javascript:b) <b>c</b>\n"),
        "<p><a href=\"\" rel=\"nofollow noopener\">a</a> &lt;b&gt;c&lt;/b&gt;</p>\n",
    );
}

#[test]
fn comments_lead_to_pages(rt: HostRuntime) {
    assert_text(
        &rt,
        comment_html(rt.alloc(), "[a](https://b.example/c?d&e)\n"),
        "<p><a href=\"https://b.example/c?d&amp;e\" rel=\"nofollow noopener\">a</a></p>\n",
    );
}
