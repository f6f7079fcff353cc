//! Bullets of list items.
ghost use Rattle.std.specs.Prelude.{◌≡◌, IfSome};
ghost use Rattle.markdown_scanners_tree.specs.scanners.list_items.ListMarker.{is_bullet};
ghost use Rattle.markdown_blocks.specs.containers.private.Markers.{IsPlainBullet};

/// The bullet at the front, if one stands there with one space and text after it, in which no marker
/// begins.
pub(crate) fn plain_bullet(text: &[u8]) -> Option<u8>
    ensures { IfSome result (λ bullet. IsPlainBullet bullet text.now) }
{
    match text {
        [bullet, b' ', byte, ..] if is_bullet(*bullet) && *byte > b'>' => Some(*bullet),
        _ => None,
    }
}

// Whether it is the marker of a bullet list's item.
fn is_bullet(byte: u8) -> bool
    ensures { result ≡ is_bullet byte }
{
    matches!(byte, b'-' | b'+' | b'*')
}
