//! Options.
use crate::printing::{print_ready, print_three, print_two};
use crate::stop::Stop;
use bitflags::Flags;
use markdown_values::values::Options;
use std::io::Stdout;

pub(crate) fn run(output: Stdout) -> Result<(), Stop> {
    print_ready(output)?;
    made(output)?;
    asked(output)?;
    combined(output)?;
    changed(output)
}

fn made(output: Stdout) -> Result<(), Stop> {
    print_three(
        output,
        (Options::empty().bits(), Options::all().bits()),
        (
            Options::from_bits(1).is_some(),
            Options::from_bits(512).is_some(),
        ),
        (
            Options::from_bits_truncate(7).bits(),
            Options::from_bits_retain(7).bits(),
        ),
    )
}

fn asked(output: Stdout) -> Result<(), Stop> {
    let old = Options::ENABLE_OLD_FOOTNOTES;
    let new = Options::ENABLE_FOOTNOTES;
    print_three(
        output,
        (Options::empty().is_empty(), Options::all().is_all()),
        (new.contains(old), new.intersects(old)),
        (new.has_gfm_footnotes(), old.has_gfm_footnotes()),
    )
}

fn combined(output: Stdout) -> Result<(), Stop> {
    let six = Options::ENABLE_TABLES.union(Options::ENABLE_FOOTNOTES);
    let old = Options::ENABLE_OLD_FOOTNOTES;
    print_two(
        output,
        (six.bits(), six.intersection(old).bits()),
        old.difference(Options::ENABLE_FOOTNOTES).bits(),
    )?;
    print_two(
        output,
        six.symmetric_difference(old).bits(),
        six.complement().bits(),
    )
}

fn changed(output: Stdout) -> Result<(), Stop> {
    let mut options = Options::ENABLE_TABLES;
    options.insert(Options::ENABLE_MATH);
    options.set(Options::ENABLE_GFM, true);
    let three = options.bits();
    options.remove(Options::ENABLE_TABLES);
    options.toggle(Options::ENABLE_MATH);
    print_two(output, three, options.bits())
}
