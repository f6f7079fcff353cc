//! What is printed of a page.
ghost use Rattle.std.specs.Prelude.{◌≡◌, IfOk, string_bytes, true};
ghost use Rattle.markdown_html.specs.PageHtml.{IsHtmlOf};
ghost use Rattle.markdown_html.specs.SafeHtml.{IsSafeHtml};
ghost use Rattle.markdown_html.specs.SafeSetting.{default_schemes};
ghost use Rattle.page_html.specs.Printed.{IsPrinted, html_setting};

use crate::asked::{Asked, Form};
use markdown_html::page::html_of_page_with;
use markdown_html::schemes::{DEFAULT_SCHEMES, safe_setting};
use markdown_html::setting::plain_setting;
use page_events::page::{EventForm, lines_of_page};
use std::alloc::{AllocError, Global};

/// What is printed of a page: its HTML, or its events, as `HELP` has it.
///
/// # Errors
///
/// `AllocError` where memory is refused.
pub fn output_of_page(alloc: Global, page: &str, asked: Asked) -> Result<String, AllocError>
    ensures { IfOk result (λ text. IsPrinted asked page.now (string_bytes text)) }
{
    match asked.form {
        Form::Html => html_of_page(alloc, page, asked),
        Form::Events => lines_of_page(alloc, page, asked.setting, EventForm::Words),
        Form::Json => lines_of_page(alloc, page, asked.setting, EventForm::Json),
    }
}

// The HTML of a page, safe unless other HTML is asked for.
fn html_of_page(alloc: Global, page: &str, asked: Asked) -> Result<String, AllocError>
    ensures html { IfOk result (λ html.
        IsHtmlOf page.now asked.setting (html_setting asked.safe) (string_bytes html)) }
    ensures safe { IfOk result (λ html. asked.safe ≡ true →
        IsSafeHtml default_schemes (string_bytes html)) }
{
    if asked.safe {
        let safe = safe_setting(DEFAULT_SCHEMES);
        return html_of_page_with(alloc, page, asked.setting, &safe);
    }
    html_of_page_with(alloc, page, asked.setting, &plain_setting())
}
