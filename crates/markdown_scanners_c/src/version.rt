//! The version of the library.
ghost use Rattle.std.specs.Prelude.{◌≡◌};
ghost use Rattle.markdown_scanners_c.specs.Version.{version};

const MAJOR: u32 = 0;

const MINOR: u32 = 2;

const PATCH: u32 = 0;

/// The three numbers of the version as one, of which each but the first has eight bits.
#[unsafe(no_mangle)]
pub extern "C" fn mds_version() -> u32
    ensures { result ≡ version }
{
    (MAJOR << 16) | (MINOR << 8) | PATCH
}
