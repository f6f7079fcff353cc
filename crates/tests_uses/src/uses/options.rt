//! Tests of `parser_uses::options`.
use crate::asserts::assert_same;
use bitflags::Flags;
use parser_uses::options::{has_tables, options_named};

#[test]
fn names_make_options(rt: HostRuntime) {
    let options = options_named(&["ENABLE_TABLES", "ENABLE_MATH", "ENABLE_NOTHING"]);
    assert_same(&rt, (options.bits(), has_tables(options)), (1026, true));
    assert!(rt; !has_tables(options_named(&["ENABLE_MATH"])));
}
