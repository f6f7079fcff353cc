//! The labels that a page defines.
ghost use Rattle.std.specs.Prelude.{IfOk};
ghost use Rattle.page_inlines.specs.Labels.{labels_of};
ghost use Rattle.page_inlines.specs.Printed.{AreLabelsOf};

use markdown_blocks::link_definitions::LinkDefinitions;
use markdown_inlines::links::Labels;
use markdown_values::values::Extensions;
use std::alloc::{AllocError, Global};

/// The labels that a page defines. Memory is asked for by the case foldings of long ones that are looked up.
#[derive(Drop)]
pub(crate) struct PageLabels<'a> {
    definitions: LinkDefinitions<'a>,
}

impl<'a> Labels for PageLabels<'a> {
    ghost use Rattle.page_inlines.specs.Labels.{labels_of};

    ghost known = { λ it. labels_of it.definitions };

    fn is_defined(&self, label: &str) -> Result<bool, AllocError> {
        Ok(self.definitions.get(label)?.is_some())
    }
}

impl<'a> PageLabels<'a> {
    /// Those of a page that is read with these extensions.
    pub(crate) fn of_page(
        alloc: Global,
        page: &'a [u8],
        asked: Extensions,
    ) -> Result<PageLabels<'a>, AllocError>
        ensures { IfOk result (λ labels.
            AreLabelsOf asked page.now (labels_of labels.definitions)) }
    {
        let definitions = LinkDefinitions::of_page_ext(alloc, page, asked)?;
        Ok(PageLabels { definitions })
    }
}
