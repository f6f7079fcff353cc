//! Email addresses in angle brackets. (CommonMark 0.31.2, section 6.5)
ghost use Rattle.std.specs.Prelude.{◌≡◌, ◌<◌, ◌≤◌, ◌+◌, ◌-◌, length, drop, take, slice_index, slice_range, IsTrue, IfSome};
ghost use Rattle.std.specs.List.{prefix_len};
ghost use Rattle.std.specs.Option.{option_map};
ghost use Rattle.std.specs.Str.{IsUtf8, IsCharBoundary};
ghost use Rattle.markdown_values.specs.strings.Text.{cow_text, IsBorrowed};
ghost use Rattle.markdown_values.specs.declared.values.LinkType.{LinkType};
ghost use Rattle.markdown_scanners_tree.specs.Ascii.{greater_than_sign};
ghost use Rattle.markdown_scanners_tree.specs.SomeExactly.{SomeExactly, IsOnly};
ghost use Rattle.markdown_inlines.specs.Emails.{IsEmailAutolink, is_local_byte, is_domain, is_domain_byte, is_label, is_label_byte};

use markdown_values::strings::CowStr;
use markdown_values::values::LinkType;

// How many bytes a label of a domain may have.
const MOST_LABEL_BYTES: usize = 63;

/// The length of the email address at the front of the bytes, after which stands its `>`.
pub fn scan_email_autolink_bytes(bytes: &[u8]) -> Option<usize>
    // The one address that stands there is answered.
    ensures found { SomeExactly (IsEmailAutolink bytes.now)
        (option_map (λ n. take n bytes.now) result) }
    ensures only { IsOnly (IsEmailAutolink bytes.now)
        (option_map (λ n. take n bytes.now) result) }

    // A `>` is after it, and a text may be cut on both sides of that.
    ensures within { IfSome result (λ n. n < length bytes.now) }
    ensures cut { IfSome result (λ n. slice_index bytes.now n ≡ greater_than_sign) }
    ensures before { IfSome result (λ n. IsUtf8 bytes.now → IsCharBoundary bytes.now n) }
    ensures after { IfSome result (λ n. IsUtf8 bytes.now → IsCharBoundary bytes.now (n + 1)) }
{
    let local = local_len(bytes);
    if local == 0 || local == bytes.len() || bytes[local] != b'@' {
        return None;
    }
    let domain = domain_len(&bytes[local + 1..]);
    let end = local + 1 + domain;
    if end == bytes.len() || bytes[end] != b'>' || !is_domain(&bytes[local + 1..end]) {
        return None;
    }
    Some(end)
}

/// The email address from `start` on that `>` ends: the offset after the `>`, and the text before it.
/// `start` is an offset between two characters.
pub fn scan_email_autolink<'a>(text: &'a str, start: usize) -> Option<(usize, CowStr<'a>, LinkType)>
    requires { 0 < start → IsCharBoundary text.now start }

    // The one address that stands there is answered.
    ensures found { SomeExactly (IsEmailAutolink (drop start text.now))
        (option_map (λ r. cow_text r.1) result) }
    ensures only { IsOnly (IsEmailAutolink (drop start text.now))
        (option_map (λ r. cow_text r.1) result) }

    // It is borrowed from the text, and the answered offset is after its `>`.
    ensures offset { IfSome result (λ r. r.0 ≡ start + length (cow_text r.1) + 1) }
    ensures slice { IfSome result (λ r. cow_text r.1 ≡ slice_range text.now start (r.0 - 1)) }
    ensures boundary { IfSome result (λ r. IsCharBoundary text.now r.0) }
    ensures borrowed { IfSome result (λ r. IsBorrowed r.1) }
    ensures kind { IfSome result (λ r. r.2 ≡ LinkType.Email) }
{
    let n = scan_email_autolink_bytes(&text.as_bytes()[start..])?;
    let end = start + n;
    Some((end + 1, CowStr::from(&text[start..end]), LinkType::Email))
}

// How many bytes at the front can stand before an `@`.
fn local_len(bytes: &[u8]) -> usize
    ensures count { result ≡ prefix_len is_local_byte bytes.now }
    ensures within { result ≤ length bytes.now }
{
    bytes.iter().take_while(|b| is_local_byte(**b)).count()
}

// Whether the byte can stand before an `@`.
fn is_local_byte(byte: u8) -> bool
    ensures { result ≡ is_local_byte byte }
{
    byte.is_ascii_alphanumeric() || b".!#$%&'*+/=?^_`{|}~-".contains(&byte)
}

// How many bytes at the front can stand in a domain.
fn domain_len(bytes: &[u8]) -> usize
    ensures count { result ≡ prefix_len is_domain_byte bytes.now }
    ensures within { result ≤ length bytes.now }
{
    bytes.iter().take_while(|b| is_domain_byte(**b)).count()
}

// Whether the byte can stand in a domain.
fn is_domain_byte(byte: u8) -> bool
    ensures { result ≡ is_domain_byte byte }
{
    is_label_byte(byte) || byte == b'.'
}

// Whether the bytes are a domain: labels with dots between them.
fn is_domain(bytes: &[u8]) -> bool
    ensures { result ≡ is_domain bytes.now }
{
    bytes.split(|b| *b == b'.').all(|label| is_label(label))
}

// Whether the bytes are a label of a domain.
fn is_label(label: &[u8]) -> bool
    ensures { result ≡ is_label label.now }
{
    let [first, ..] = label else {
        return false;
    };
    if label.len() > MOST_LABEL_BYTES || *first == b'-' || label[label.len() - 1] == b'-' {
        return false;
    }
    label.iter().all(|b| is_label_byte(*b))
}

// Whether the byte can stand in a label of a domain.
fn is_label_byte(byte: u8) -> bool
    ensures { result ≡ is_label_byte byte }
{
    byte.is_ascii_alphanumeric() || byte == b'-'
}
