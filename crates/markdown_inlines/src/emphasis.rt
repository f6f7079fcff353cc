//! Emphasis, strong emphasis and strikethrough among delimiter runs. (CommonMark 0.31.2, section 6.2;
//! GitHub Flavored Markdown 0.29, section 6.5)
ghost use Rattle.std.specs.Prelude.{◌≡◌, ◌++◌, ◌∷◌, ◌<◌, ◌≤◌, ◌+◌, [], List, ℕ, suc, min, length, reverse, take, get_or, None, Some, IfSome, IfNone, IfOk};
ghost use Rattle.std.specs.Prelude.{OnOk};
ghost use Rattle.markdown_inlines.specs.Emphasis.{left, fits, are_pair, breaks_three, nearest, made_of, openers_left, closer_left, ended_by};
ghost use Rattle.markdown_inlines.specs.Emphasis.{none_ended, with_first, ended, emphasis_from, emphasis_of};
ghost use Rattle.markdown_inlines.specs.EmphasisBounds.{AreOfDelimiters, IsOfDelimiters, AreLeft, ArePassed, kind_of};
ghost use Rattle.markdown_inlines.specs.declared.emphasis.Delimiters.{Delimiters};

use crate::delimiter_runs::DelimiterRun;
use std::alloc::{AllocError, Global};
use std::marker::Model;
use std::mem;

// How many kinds of closers there are: of `*` and `_` by byte, whether they can open too, and their
// length modulo three; of tildes by their length, up to three.
const KINDS: usize = 16;

/// The delimiters of a run that are in no emphasis yet.
#[derive(Clone, Copy)]
pub struct Delimiters {
    /// Where they begin in the text.
    pub start: usize,
    /// Where they end.
    pub end: usize,
    /// The run, as it stands in the text.
    pub run: DelimiterRun,
}

/// Emphasis, strong emphasis, or strikethrough.
#[derive(Clone, Copy, Debug, PartialEq, Eq)]
pub struct Emphasis {
    /// Where its opening delimiters begin.
    pub opening: usize,
    /// Where its closing delimiters begin.
    pub closing: usize,
    /// How many there are on each side: one of emphasis, two of strong emphasis, one or two of
    /// strikethrough.
    pub count: usize,
    /// The byte of its delimiters: `*`, `_`, or the `~` of strikethrough.
    pub byte: u8,
}

// The runs that can still open emphasis.
#[derive(Drop)]
struct Openers {
    // The outermost first.
    stack: Vec<Delimiters>,
    // For each kind of closer, how many of the outermost are known not to fit it.
    passed: [usize; KINDS],
}

impl Model for Openers {
    ghost Value = { List Delimiters };

    ghost view = { λ o. reverse o.stack.items };

    ghost invariant = { λ o. AreLeft o.stack.items × ArePassed o.passed o.stack.items };
}

/// The emphasis of a text with these delimiter runs, in the order of the text: of each its offset,
/// with all its delimiters left. It is answered in the order in which it ends, so that emphasis in
/// other emphasis comes before that.
///
/// A text is the content of a block, or the text of one link: emphasis doesn't go across its ends.
/// The time is linear in the number of delimiters. Memory is asked for by runs that may still open
/// emphasis, and by what is answered.
///
/// # Errors
///
/// `AllocError` where that memory is refused.
pub fn find_emphasis(alloc: Global, runs: &[Delimiters]) -> Result<Vec<Emphasis>, AllocError>
    requires { AreOfDelimiters runs.now }

    // It is what the procedure of the specification makes of the runs.
    ensures { IfOk result (λ emphasis. emphasis.items ≡ emphasis_of runs.now) }
{
    let mut emphasis = Vec::new(alloc);
    let mut buffer = Vec::new(alloc);
    push_emphasis(alloc, &mut buffer, runs, &mut emphasis)?;
    Ok(emphasis)
}

// Adds the emphasis of a text with these runs. The runs that can still open emphasis are kept in
// the buffer; nothing depends on what is in it.
#[inline(always)]
pub(crate) fn push_emphasis(
    alloc: Global,
    buffer: &mut Vec<Delimiters>,
    runs: &[Delimiters],
    emphasis: &mut Vec<Emphasis>,
) -> Result<(), AllocError>
    requires { AreOfDelimiters runs.now }
    ensures { OnOk result (emphasis.new.items ≡ emphasis.old.items ++ emphasis_of runs.now) }
{
    if runs.is_empty() {
        return Ok(());
    }
    let mut openers = Openers::within(mem::replace(buffer, Vec::new(alloc)));
    openers.read_all(runs, emphasis)?;
    *buffer = openers.stack;
    Ok(())
}

impl Openers {
    // No run is read. Nothing depends on what is in the buffer.
    fn within(buffer: Vec<Delimiters>) -> Openers
        ensures { result ≡ [] }
    {
        let mut stack = buffer;
        stack.clear();
        Openers {
            stack,
            passed: [0; KINDS],
        }
    }

    // Adds the emphasis that the next runs end.
    #[inline(never)]
    fn read_all(
        &mut self,
        runs: &[Delimiters],
        emphasis: &mut Vec<Emphasis>,
    ) -> Result<(), AllocError>
        requires { AreOfDelimiters runs.now }
        ensures { OnOk result (emphasis.new.items
            ≡ emphasis.old.items ++ emphasis_from self.old runs.now) }
    {
        for run in runs {
            self.read(*run, emphasis)?;
        }
        Ok(())
    }

    // Adds the emphasis that the next run ends. What is left of it may open emphasis.
    fn read(&mut self, run: Delimiters, emphasis: &mut Vec<Emphasis>) -> Result<(), AllocError>
        requires { IsOfDelimiters run.run }
        ensures { OnOk result ((later : List Delimiters)
            → emphasis.new.items ++ emphasis_from self.new later
            ≡ emphasis.old.items ++ emphasis_from self.old (run ∷ later)) }
    {
        let rest = self.end(run, emphasis)?;
        if rest.run.can_open && left(rest) > 0 {
            self.stack.push(rest)?;
        }
        Ok(())
    }

    // Adds the emphasis that a run ends, and answers what is left of it.
    fn end(
        &mut self,
        run: Delimiters,
        emphasis: &mut Vec<Emphasis>,
    ) -> Result<Delimiters, AllocError>
        requires { IsOfDelimiters run.run }
        ensures emphasis { OnOk result (emphasis.new.items
            ≡ emphasis.old.items ++ (ended run self.old).emphasis) }
        ensures openers { OnOk result (self.new ≡ (ended run self.old).openers) }
        ensures rest { IfOk result (λ rest. rest ≡ (ended run self.old).closer) }
    {
        let mut closer = run;
        if !run.run.can_close {
            return Ok(closer);
        }
        while let Some(made) = self.close(closer) {
            emphasis.push(made)?;
            closer.start += made.count;
        }
        Ok(closer)
    }

    // Makes emphasis of a closer and the nearest opener that fits, if there is one.
    fn close(&mut self, closer: Delimiters) -> Option<Emphasis>
        requires { IsOfDelimiters closer.run }
        ensures made { IfSome result (λ made. (n : ℕ) → ended_by (suc n) closer self.old
            ≡ with_first made (ended_by n (closer_left closer made.count) self.new)) }
        ensures some { IfSome result (λ made. 0 < made.count) }
        ensures within { IfSome result (λ made. closer.start + made.count ≤ closer.end) }
        ensures none { IfNone result ((n : ℕ)
            → ended_by n closer self.old ≡ none_ended closer self.old) }
        ensures unchanged { IfNone result (self.new ≡ self.old) }
    {
        if left(closer) == 0 {
            return None;
        }
        let kind = kind_of(closer.run);
        let Some((index, opener)) = find_opener(&self.stack, self.passed[kind], closer.run) else {
            self.passed[kind] = self.stack.len();
            return None;
        };
        let count = left(opener).min(left(closer)).min(2);
        keep(&mut self.stack, index, opener, count);
        lower(&mut self.passed, index);
        Some(Emphasis {
            opening: opener.end - count,
            closing: closer.start,
            count,
            byte: closer.run.byte,
        })
    }
}

// The innermost opener that fits the closer, with its index. Of the outermost so many don't fit it.
fn find_opener(
    openers: &[Delimiters],
    passed: usize,
    closer: DelimiterRun,
) -> Option<(usize, Delimiters)>
    requires few { passed ≤ length openers.now }
    requires none { nearest closer (reverse (take passed openers.now)) ≡ None }
    ensures found { IfSome result (λ r.
        nearest closer (reverse openers.now) ≡ Some (r.1, reverse (take r.0 openers.now))) }
    ensures within { IfSome result (λ r. r.0 < length openers.now) }
    ensures some { IfSome result (λ r. AreLeft openers.now → r.1.start < r.1.end) }
    ensures none { IfNone result (nearest closer (reverse openers.now) ≡ None) }
{
    let mut index = openers.len();
    while index > passed {
        index -= 1;
        if fits(closer, openers[index].run) {
            return Some((index, openers[index]));
        }
    }
    None
}

// Of the openers keeps those before an index, and after them the opener there, of which so many
// delimiters are used, if it has any left.
fn keep(openers: &mut Vec<Delimiters>, index: usize, opener: Delimiters, count: usize)
    requires within { index < length openers.old.items }
    requires enough { count ≤ left opener }
    ensures openers { reverse openers.new.items
        ≡ openers_left opener count (reverse (take index openers.old.items)) }
    ensures outer { take index openers.new.items ≡ take index openers.old.items }
    ensures few { index ≤ length openers.new.items }
    ensures some { AreLeft openers.old.items → AreLeft openers.new.items }
{
    if left(opener) == count {
        openers.truncate(index);
        return;
    }
    openers[index] = Delimiters {
        end: opener.end - count,
        ..opener
    };
    openers.truncate(index + 1);
}

// Lowers each number to this one, if it is higher.
fn lower(numbers: &mut [usize; KINDS], most: usize)
    ensures lowered { (k : ℕ) → get_or numbers.new k 0 ≡ min (get_or numbers.old k 0) most }
    ensures kinds { length numbers.new ≡ length numbers.old }
{
    for number in numbers.iter_mut() {
        *number = (*number).min(most);
    }
}

// How many delimiters are left.
fn left(delimiters: Delimiters) -> usize
    ensures { result ≡ left delimiters }
{
    delimiters.end.saturating_sub(delimiters.start)
}

// Whether an opener of the same byte fits the closer: as a pair of tildes, or by the rule of three.
fn fits(closer: DelimiterRun, opener: DelimiterRun) -> bool
    ensures { result ≡ fits closer opener }
{
    if opener.byte != closer.byte {
        return false;
    }
    if closer.byte == b'~' {
        are_pair(opener, closer)
    } else {
        !breaks_three(opener, closer)
    }
}

// Whether two runs of tildes are a pair.
fn are_pair(opener: DelimiterRun, closer: DelimiterRun) -> bool
    ensures { result ≡ are_pair opener closer }
{
    opener.count == closer.count && closer.count <= 2
}

// Whether the rule of three keeps the two runs apart.
fn breaks_three(opener: DelimiterRun, closer: DelimiterRun) -> bool
    ensures { result ≡ breaks_three opener closer }
{
    let sum = opener.count % 3 + closer.count % 3;
    (opener.can_close || closer.can_open)
        && sum % 3 == 0
        && !(opener.count % 3 == 0 && closer.count % 3 == 0)
}

// The kind of a closer.
fn kind_of(run: DelimiterRun) -> usize
    ensures kind { result ≡ kind_of run }
    ensures within { result < 16 }
{
    if run.byte == b'~' {
        return 12 + run.count.min(3);
    }
    let byte = if run.byte == b'_' { 2 } else { 0 };
    let both = if run.can_open { 1 } else { 0 };
    4 * (run.count % 3) + byte + both
}
