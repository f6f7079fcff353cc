//! Small tables of entities.
ghost use Rattle.std.specs.Prelude.{◌≡◌, map, find};
ghost use Rattle.std.specs.Option.{option_copied, option_map};
ghost use Rattle.std.specs.Str.{bytes_eq};
ghost use Rattle.markdown_scanners_tree.specs.scanners.entities.TableText.{text_of_name};

use crate::scanners::entities::Entities;

/// A small table of entities, such as a program's own: names, without `&` and `;`, and their texts.
/// Where a name has two rows, the first counts. (CommonMark 0.31.2, section 2.5)
///
/// A lookup compares rows in turn. The crate `html_entities` has the table of all of HTML's.
#[derive(Clone, Copy)]
pub struct EntityTable {
    /// A name and its text in each row.
    pub rows: &'static [(&'static [u8], &'static str)],
}

impl Entities for EntityTable {
    ghost known = { λ table name.
        text_of_name (map (λ row. (row.0.now, row.1.now)) table.rows.now) name };

    #[inline(always)]
    fn get(&self, name: &[u8]) -> Option<&'static str> {
        text_of(self.rows, name)
    }
}

// The text in the first row with the name.
#[inline(always)]
fn text_of(rows: &[(&[u8], &'static str)], name: &[u8]) -> Option<&'static str>
    ensures { option_copied result
        ≡ option_map (λ row. row.1.now) (find (λ row. bytes_eq row.0.now name.now) rows.now) }
{
    rows.iter().find(|row| row.0 == name).map(|row| row.1)
}
