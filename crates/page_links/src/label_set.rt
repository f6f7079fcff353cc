//! Sets of labels. (CommonMark 0.31.2, section 6.3)
ghost use Rattle.std.specs.Prelude.{◌≡◌, ◌++◌, [], ◌∷◌, List, ℕ, IfOk, OnOk, string_bytes};
ghost use Rattle.markdown_scanners_tree.specs.linklabel.Key.{key_bytes};
ghost use Rattle.page_links.specs.label_set.LabelSet.{HasLabels, has};

use caseless::default_case_fold_str;
use std::alloc::{AllocError, Global};
use std::collections::BTreeSet;
use std::marker::Model;

/// Labels, of which two match where their case foldings are equal.
///
/// They are kept in the order of their case foldings, so that neither labels that are many nor
/// labels that are made to collide take more than a search in a tree.
#[derive(Drop)]
pub(crate) struct LabelSet {
    alloc: Global,
    foldings: BTreeSet<String>,
}

impl Model for LabelSet {
    ghost use Rattle.std.specs.Prelude.{List, ℕ, map, string_bytes};

    ghost Value = { List (List ℕ) };

    ghost view = { λ set. map string_bytes set.foldings.keys };
}

impl LabelSet {
    /// None.
    pub(crate) fn new(alloc: Global) -> LabelSet
        ensures { result ≡ [] }
    {
        LabelSet {
            alloc,
            foldings: BTreeSet::new(alloc),
        }
    }

    /// Whether one of them matches this label.
    ///
    /// Memory is asked for the label's case folding.
    pub(crate) fn contains(&self, label: &str) -> Result<bool, AllocError>
        ensures { IfOk result (λ found. found ≡ has self.now label.now) }
    {
        let folding = case_folding(self.alloc, label)?;
        Ok(self.foldings.contains(folding.as_str()))
    }

    /// Adds a label.
    pub(crate) fn add(&mut self, label: &str) -> Result<(), AllocError>
        ensures { OnOk result ((labels : List (List ℕ)) → HasLabels self.old labels
            → HasLabels self.new (labels ++ label.now ∷ [])) }
    {
        let folding = case_folding(self.alloc, label)?;
        self.foldings.insert(folding)?;
        Ok(())
    }
}

// The case folding of a label.
fn case_folding(alloc: Global, label: &str) -> Result<String, AllocError>
    ensures { IfOk result (λ folding. string_bytes folding ≡ key_bytes label.now) }
{
    default_case_fold_str(alloc, label)
}
