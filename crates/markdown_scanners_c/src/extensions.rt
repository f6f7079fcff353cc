//! The extensions that C callers ask for, by the bits of `enum mds_extension`.
ghost use Rattle.std.specs.Prelude.{◌≡◌, ◌==◌};
ghost use Rattle.markdown_events.specs.page.Settings.{not_built};
ghost use Rattle.markdown_scanners_c.specs.Extensions.{extensions_of, options_of, unknown_bits};

use bitflags::Flags;
use markdown_events::settings::not_built;
use markdown_values::values::{Extensions, Options};

/// What these bits ask for.
pub(crate) fn extensions_of(bits: u32) -> Extensions
    ensures { result ≡ extensions_of bits }
{
    Extensions::of(Options::from_bits_retain(bits))
}

/// Whether each of these bits is one of an extension.
pub(crate) fn are_extensions(bits: u32) -> bool
    ensures { result ≡ (unknown_bits bits == 0) }
{
    let options = Options::from_bits_retain(bits);
    let known = extensions_of(bits).options();
    options.difference(known).is_empty()
}

/// Whether each of these bits is one of an extension of which events are built.
pub(crate) fn are_built(bits: u32) -> bool
    ensures { result ≡ (not_built (options_of bits) == 0) }
{
    not_built(Options::from_bits_retain(bits)).is_empty()
}
