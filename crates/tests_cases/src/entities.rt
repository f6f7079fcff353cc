//! The entities that the cases know.
use markdown_scanners_tree::scanners::EntityTable;

/// ASCII texts, others, and one of two characters.
pub(crate) const ENTITIES: EntityTable = EntityTable {
    rows: &[
        (b"amp", "&"),
        (b"lt", "<"),
        (b"gt", ">"),
        (b"quot", "\""),
        (b"copy", "\u{a9}"),
        (b"AElig", "\u{c6}"),
        (b"ngE", "\u{2267}\u{338}"),
        (b"frac34", "\u{be}"),
    ],
};
