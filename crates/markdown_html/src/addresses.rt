//! Addresses that a link or an image may lead to, by their schemes.
ghost use Rattle.std.specs.Prelude.{◌≡◌, ◌≤◌, ◌||◌, false, map, length};
ghost use Rattle.std.specs.List.{prefix_len, list_any};
ghost use Rattle.std.specs.Char.{to_ascii_lowercase};
ghost use Rattle.std.specs.Str.{bytes_eq};
ghost use Rattle.std.specs.Option.{option_map};
ghost use Rattle.markdown_scanners_tree.specs.Bytes.{begins_with, is_letter};
ghost use Rattle.markdown_scanners_tree.specs.scanners.links.Autolink.{is_scheme_byte};
ghost use Rattle.markdown_html.specs.Addresses.{is_allowed_address, is_control_or_space, is_tab_or_newline};
ghost use Rattle.markdown_html.specs.Addresses.{without_leading, without_breaks, scheme_start_state};

/// Whether the scheme of an address is one of these, without regard to case, or the address is
/// relative and has none. It is read as a browser reads it: leading control characters and spaces
/// and all tabs and line endings are passed over. (URL standard, section 4.4)
///
/// The escapes and references of the address are resolved. The schemes have no colon.
pub fn is_allowed_address(address: &[u8], schemes: &[&str]) -> bool
    ensures { result ≡ is_allowed_address (map (λ scheme. scheme.now) schemes.now) address.now }
{
    match written_scheme(without_leading(address)) {
        Some(written) => is_listed(written, schemes),
        None => true,
    }
}

// The address without the control characters and spaces at its front.
fn without_leading(address: &[u8]) -> &[u8]
    ensures url { result.now ≡ without_leading address.now }
    ensures front { begins_with is_control_or_space result.now ≡ false }
{
    &address[leading_len(address)..]
}

// How many control characters and spaces stand at the front.
fn leading_len(address: &[u8]) -> usize
    ensures count { result ≡ prefix_len is_control_or_space address.now }
    ensures within { result ≤ length address.now }
{
    address.iter().take_while(|b| **b <= b' ').count()
}

// The bytes of the scheme at the front as they are written, tabs and line endings among them.
fn written_scheme(url: &[u8]) -> Option<&[u8]>
    requires { begins_with is_control_or_space url.now ≡ false }
    ensures { scheme_start_state (without_breaks url.now)
        ≡ option_map (λ written. map to_ascii_lowercase (without_breaks written.now)) result }
{
    if url.is_empty() || !is_letter(url[0]) {
        return None;
    }
    let len = scheme_len(url);
    if len < url.len() && url[len] == b':' {
        Some(&url[..len])
    } else {
        None
    }
}

// How many bytes at the front can stand in a scheme, or are passed over in one.
fn scheme_len(url: &[u8]) -> usize
    ensures count { result ≡ prefix_len (λ b. is_tab_or_newline b || is_scheme_byte b) url.now }
    ensures within { result ≤ length url.now }
{
    url.iter()
        .take_while(|b| is_tab_or_newline(**b) || is_scheme_byte(**b))
        .count()
}

fn is_letter(b: u8) -> bool
    ensures { result ≡ is_letter b }
{
    b.is_ascii_alphabetic()
}

fn is_scheme_byte(b: u8) -> bool
    ensures { result ≡ is_scheme_byte b }
{
    b.is_ascii_alphanumeric() || matches!(b, b'+' | b'-' | b'.')
}

fn is_tab_or_newline(b: u8) -> bool
    ensures { result ≡ is_tab_or_newline b }
{
    matches!(b, b'\t' | b'\n' | b'\r')
}

// Whether the bytes spell one of the schemes.
fn is_listed(written: &[u8], schemes: &[&str]) -> bool
    ensures { result ≡ list_any
        (λ scheme. bytes_eq (map to_ascii_lowercase (without_breaks written.now))
        (map to_ascii_lowercase scheme.now)) schemes.now }
{
    schemes
        .iter()
        .any(|scheme| spells(written, scheme.as_bytes()))
}

// Whether the bytes spell a scheme, without regard to case, tabs and line endings passed over.
fn spells(written: &[u8], scheme: &[u8]) -> bool
    ensures { result ≡ bytes_eq (map to_ascii_lowercase (without_breaks written.now))
        (map to_ascii_lowercase scheme.now) }
{
    let mut read = 0;
    for byte in written {
        if is_tab_or_newline(*byte) {
            continue;
        }
        if read == scheme.len() || !byte.eq_ignore_ascii_case(&scheme[read]) {
            return false;
        }
        read += 1;
    }
    read == scheme.len()
}
