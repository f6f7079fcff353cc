//! How the name of a page is printed.
ghost use Rattle.std.specs.Prelude.{◌≡◌, ◌++◌, IfOk, OnOk, string_bytes};
ghost use Rattle.page_programs.specs.Names.{shown, shown_char, shown_name};

use std::alloc::{AllocError, Global};

/// How a page of this name is called.
pub fn shown_name(alloc: Global, name: &str) -> Result<String, AllocError>
    ensures { IfOk result (λ text. string_bytes text ≡ shown_name name.now) }
{
    if name == "-" {
        return String::from_str(alloc, "standard input");
    }
    shown(alloc, name)
}

/// A name that is printed: each control character of it is an escape, so that it breaks no line.
pub fn shown(alloc: Global, name: &str) -> Result<String, AllocError>
    ensures { IfOk result (λ text. string_bytes text ≡ shown name.now) }
{
    let mut text = String::new(alloc);
    for c in name.chars() {
        push_shown(&mut text, c)?;
    }
    Ok(text)
}

// Adds a character of a name.
fn push_shown(text: &mut String, c: char) -> Result<(), AllocError>
    ensures { OnOk result (string_bytes text.new ≡ string_bytes text.old ++ shown_char c) }
{
    if c == '\t' {
        return text.push_str("\\t");
    }
    if c == '\n' {
        return text.push_str("\\n");
    }
    if c == '\r' {
        return text.push_str("\\r");
    }
    if c.is_control() {
        return write!(text, "\\u{{{:x}}}", c as u32);
    }
    text.push(c)
}
