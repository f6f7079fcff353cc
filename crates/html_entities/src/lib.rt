//! The entities of HTML by their names, for the scanners that take a table of entities.
#![tactic(auto)]

ghost use Rattle.html_entities.specs.Entities.{html_entity};

mod lookup;
mod meaning_text;
mod name_text;
mod places;

use lookup::meaning_by_name;
use markdown_scanners_tree::scanners::Entities;

/// All 2,125 entities whose names end in `;` in HTML's list, which are those of CommonMark.
#[derive(Clone, Copy)]
pub struct HtmlEntities;

impl Entities for HtmlEntities {
    ghost known = { λ _ name. html_entity name };

    fn get(&self, name: &[u8]) -> Option<&'static str> {
        meaning_by_name(name)
    }
}
