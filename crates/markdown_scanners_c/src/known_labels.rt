//! Which labels a caller says are defined. (CommonMark 0.31.2, section 6.3)
ghost use Rattle.std.specs.Prelude.{◌≡◌, ℕ, List, ◌||◌, IfOk};
ghost use Rattle.std.specs.BTreeSet.{contains_text};
ghost use Rattle.std.specs.List.{list_all, list_any};
ghost use Rattle.std.specs.Str.{is_utf8};
ghost use Rattle.markdown_scanners_c.specs.KnownLabels.{has_key, known_in};

use caseless::default_case_fold_str;
use markdown_inlines::links::Labels;
use std::alloc::{AllocError, Global};
use std::collections::BTreeSet;

/// `struct mds_view` of C: a text that stands somewhere.
#[repr(C)]
#[derive(Clone, Copy)]
pub struct View<'a> {
    pub text: &'a [u8],
}

/// Whether each of these is UTF-8.
pub(crate) fn are_texts(labels: &[View<'_>]) -> bool
    ensures { result ≡ list_all (λ label. is_utf8 label.text.now) labels.now }
{
    labels.iter().all(|label| is_text(label))
}

fn is_text(label: &View<'_>) -> bool
    ensures { result ≡ is_utf8 label.now.text.now }
{
    match str::from_utf8(label.text) {
        Ok(_) => true,
        Err(_) => false,
    }
}

/// The labels that a caller says are defined, in the order of their keys too, so that neither labels
/// that are many nor labels that are made to collide take more than a search in a tree.
#[derive(Drop)]
pub(crate) struct KnownLabels<'a> {
    alloc: Global,
    labels: &'a [View<'a>],
    keys: BTreeSet<String>,
    ghost are_keys: { (key : List ℕ) → contains_text keys key ≡ list_any (has_key key) labels.now },
}

impl<'a> KnownLabels<'a> {
    /// Those of the caller. One that is not UTF-8 matches nothing.
    pub(crate) fn new(alloc: Global, labels: &'a [View<'a>]) -> Result<KnownLabels<'a>, AllocError>
        ensures { IfOk result (λ known. known.labels.now ≡ labels.entry.now) }
    {
        let mut keys = BTreeSet::new(alloc);
        for label in labels {
            add_key(alloc, &mut keys, label)?;
        }
        Ok(KnownLabels {
            alloc,
            labels,
            keys,
        })
    }
}

impl<'a> Labels for KnownLabels<'a> {
    ghost known = { λ it. known_in it.labels.now };

    fn is_defined(&self, label: &str) -> Result<bool, AllocError> {
        let key = default_case_fold_str(self.alloc, label)?;
        Ok(self.keys.contains(key.as_str()))
    }
}

// Adds the key of a label, if it is UTF-8.
fn add_key(alloc: Global, keys: &mut BTreeSet<String>, label: &View<'_>) -> Result<(), AllocError>
    ensures { IfOk result (λ _. (key : List ℕ)
        → contains_text keys.new key ≡ (has_key key label.now || contains_text keys.old key)) }
{
    let Ok(text) = str::from_utf8(label.text) else {
        return Ok(());
    };
    keys.insert(default_case_fold_str(alloc, text)?)?;
    Ok(())
}
