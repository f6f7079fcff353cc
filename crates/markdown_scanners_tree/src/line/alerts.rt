//! Alerts, by the names of the five kinds.
ghost use Rattle.std.specs.Prelude.{◌≡◌, ◌<◌, ◌≤◌, length, IsTrue, IfSome};
ghost use Rattle.markdown_scanners_tree.specs.line.Outcome.{is_alert_name, alert_name, alert_line};

use crate::scanners::scan_blank_line;
use markdown_values::values::BlockQuoteKind;

// The alerts by their names in lower case.
const ALERTS: [(&str, BlockQuoteKind); 5] = [
    ("note", BlockQuoteKind::Note),
    ("tip", BlockQuoteKind::Tip),
    ("important", BlockQuoteKind::Important),
    ("warning", BlockQuoteKind::Warning),
    ("caution", BlockQuoteKind::Caution),
];

// The kind of the alert whose line stands at the front, and the length of that line.
pub(in crate::line) fn scan_alert(bytes: &[u8]) -> Option<(BlockQuoteKind, usize)>
    ensures alert { result ≡ alert_line bytes.now }
    ensures filled { IfSome result (λ alert. 0 < alert.1) }
    ensures within { IfSome result (λ alert. alert.1 ≤ length bytes.now) }
{
    let name = bytes.strip_prefix(b"[!")?;
    let (kind, length) = scan_alert_name(name)?;
    let rest = scan_blank_line(&name[length..])?;
    Some((kind, 2 + length + rest))
}

// The kind of the alert whose name and `]` stand at the front, and the length of both.
fn scan_alert_name(bytes: &[u8]) -> Option<(BlockQuoteKind, usize)>
    ensures name { result ≡ alert_name bytes.now }
    ensures within { IfSome result (λ alert. alert.1 ≤ length bytes.now) }
{
    for (name, kind) in ALERTS {
        if begins_with_name(bytes, name.as_bytes()) {
            return Some((kind, name.len() + 1));
        }
    }
    None
}

// Whether the name stands at the front, in any ASCII case, and `]` after it.
fn begins_with_name(bytes: &[u8], name: &[u8]) -> bool
    ensures name { result ≡ is_alert_name name.now bytes.now }
    ensures within { IsTrue result → length name.now < length bytes.now }
{
    if bytes.len() <= name.len() {
        return false;
    }
    bytes[..name.len()].eq_ignore_ascii_case(name) && bytes[name.len()] == b']'
}
