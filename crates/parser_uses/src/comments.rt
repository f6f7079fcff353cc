//! Text by people who are not trusted.
ghost use Rattle.std.specs.Prelude.{[], ◌∷◌, IfOk, codes, string_bytes};
ghost use Rattle.markdown_html.specs.SafeHtml.{IsSafeHtml};

use markdown_html::page::html_of_page;
use markdown_html::schemes::safe_setting;
use std::alloc::{AllocError, Global};

/// The HTML of a comment, whose links lead to pages of the web, to mail and to telephones alone.
pub fn comment_html(alloc: Global, text: &str) -> Result<String, AllocError>
    ensures { IfOk result (λ html. IsSafeHtml
        (codes "https" ∷ codes "http" ∷ codes "mailto" ∷ codes "tel" ∷ []) (string_bytes html)) }
{
    let setting = safe_setting(&["https", "http", "mailto", "tel"]);
    html_of_page(alloc, text, &setting)
}
