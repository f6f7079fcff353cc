//! Options by the names of their extensions.
ghost use Rattle.std.specs.Prelude.{◌≡◌, ◌==◌, fold};
ghost use Rattle.std.specs.Int.RustNames.{bit_and, bit_or};
ghost use Rattle.markdown_values.specs.values.Extensions.{bits_of};
ghost use Rattle.parser_uses.specs.Extensions.{bits_named};

use bitflags::Flags;
use markdown_values::values::Options;

// The bits of the extension of this name, as `ENABLE_TABLES`; 0 where none has it.
#[tactic(auto, unfolding(crate::specs::Extensions::bits_named))]
fn bits_of_name(name: &str) -> u32
    ensures { result ≡ bits_named name.now }
{
    match Options::from_name(name) {
        Some(option) => option.bits(),
        None => 0,
    }
}

/// The extensions of these names together. A name that no extension has adds nothing.
pub fn options_named(names: &[&str]) -> Options
    ensures { bits_of result ≡ fold (λ bits name. bit_or bits (bits_named name.now)) 0 names.now }
{
    let bits = names.iter().fold(0, |bits, name| bits | bits_of_name(name));
    Options::from_bits_retain(bits)
}

/// Whether tables are on.
pub fn has_tables(options: Options) -> bool
    ensures { result ≡ (bit_and (bits_of options) 2 == 2) }
{
    options.contains(Options::ENABLE_TABLES)
}
