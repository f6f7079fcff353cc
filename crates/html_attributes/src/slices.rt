//! Parts of bytes.
ghost use Rattle.std.specs.Prelude.{◌≡◌, ◌<◌, drop, length, take};

// What follows so many bytes.
pub(crate) fn bytes_after(bytes: &[u8], count: usize) -> &[u8]
    ensures rest { result.now ≡ drop count bytes.now }
    ensures shorter { 0 < count → 0 < length bytes.now → length result.now < length bytes.now }
{
    if count < bytes.len() {
        &bytes[count..]
    } else {
        &[]
    }
}

// So many bytes at the front, or all.
pub(crate) fn first_bytes(bytes: &[u8], count: usize) -> &[u8]
    ensures { result.now ≡ take count bytes.now }
{
    if count < bytes.len() {
        &bytes[..count]
    } else {
        bytes
    }
}
