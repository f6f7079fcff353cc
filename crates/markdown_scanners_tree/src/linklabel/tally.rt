//! What the first pass over a label keeps of the bytes that it has read.
ghost use Rattle.std.specs.Prelude.{◌≡◌, ◌≤◌, ◌+◌, ◌-◌, ◌&&◌, not, length};
ghost use Rattle.std.specs.List.{sum_by};
ghost use Rattle.markdown_scanners_tree.specs.Bytes.{is_between};
ghost use Rattle.markdown_scanners_tree.specs.linklabel.private.Pass.{continued, due_len, gap_len};
ghost use Rattle.markdown_scanners_tree.specs.linklabel.private.Pass.{tally_after_words, tally_past_ending, tally_past_space, tally_past_word};

// How many bytes are counted at once.
const PART: usize = 255;

// What is known of the bytes of a label that were read: how many of them begin none of its
// characters, how many its text leaves out, where the space between two words counts as soon as white
// space stands after the first; whether there is a word, whether a run of white space ends them, and
// whether a line ending is in it; and whether they stand in the label as they are. What changes with
// no byte of most words is kept, and the rest is derived from it.
#[derive(Clone, Copy, Drop)]
pub(crate) struct Tally {
    pub(crate) skipped: usize,
    pub(crate) left_out: usize,
    pub(crate) has_word: bool,
    pub(crate) in_run: bool,
    pub(crate) has_ending: bool,
    pub(crate) is_plain: bool,
}

impl Tally {
    // After so many bytes that are words with one space between, of which these begin no character.
    pub(crate) fn after_words(count: usize, continued: usize) -> Tally
        ensures { result ≡ tally_after_words count continued }
    {
        Tally {
            skipped: continued,
            left_out: 0,
            has_word: count > 0,
            in_run: false,
            has_ending: false,
            is_plain: true,
        }
    }

    // After a line ending of this many bytes, and those that are skipped after it.
    pub(crate) fn past_ending(self, len: usize, skip: usize) -> Tally
        requires some { 1 ≤ len }
        requires skipped_fits { self.skipped + skip ≤ usize.MAX }
        requires left_out_fits { self.left_out + len + skip ≤ usize.MAX }
        ensures { result ≡ tally_past_ending self len skip }
    {
        Tally {
            skipped: self.skipped + skip,
            left_out: self.left_out + len + skip - self.gap(),
            in_run: true,
            has_ending: true,
            is_plain: false,
            ..self
        }
    }

    // After a byte of white space that ends no line.
    pub(crate) fn past_space(self, byte: u8) -> Tally
        requires { self.left_out + 1 ≤ usize.MAX }
        ensures { result ≡ tally_past_space self byte }
    {
        Tally {
            left_out: self.left_out + 1 - self.gap(),
            in_run: true,
            has_ending: self.ends_line(),
            is_plain: self.is_plain && byte == b' ' && !self.in_run,
            ..self
        }
    }

    // After a byte of a word, which is or is not dropped.
    pub(crate) fn past_word(self, byte: u8, dropped: bool) -> Tally
        requires skipped_fits { self.skipped + 1 ≤ usize.MAX }
        requires left_out_fits { self.left_out + 1 ≤ usize.MAX }
        ensures { result ≡ tally_past_word self byte dropped }
    {
        Tally {
            skipped: self.skipped + usize::from(continued(byte)),
            left_out: self.left_out + if dropped { 1 } else { 0 },
            has_word: true,
            in_run: false,
            is_plain: self.is_plain && !dropped,
            ..self
        }
    }

    // How many characters so many bytes are.
    pub(crate) fn characters(self, bytes: usize) -> usize
        requires { self.skipped ≤ bytes }
        ensures { result ≡ bytes - self.skipped }
    {
        bytes - self.skipped
    }

    // How long the text of so many bytes is, where there is a word.
    pub(crate) fn length(self, bytes: usize) -> usize
        requires { self.left_out + due_len self.in_run ≤ bytes }
        ensures { result ≡ bytes - (self.left_out + due_len self.in_run) }
    {
        bytes - (self.left_out + if self.in_run { 1 } else { 0 })
    }

    // Whether a line ending is in a run of white space at the end.
    pub(crate) fn ends_line(self) -> bool
        ensures { result ≡ (self.in_run && self.has_ending) }
    {
        self.in_run && self.has_ending
    }

    // How many bytes of the text white space adds: the space after a word.
    fn gap(self) -> usize
        ensures { result ≡ gap_len self.has_word self.in_run }
    {
        if self.has_word && !self.in_run { 1 } else { 0 }
    }
}

// How many bytes this is that begin no character.
fn continued(byte: u8) -> u8
    ensures { result ≡ continued byte }
{
    if begins(byte) { 0 } else { 1 }
}

// How many of the bytes begin no character.
pub(crate) fn continued_count(bytes: &[u8]) -> usize
    ensures { result ≡ sum_by continued bytes.now }
{
    if bytes.is_ascii() {
        return 0;
    }
    let mut count = 0;
    let mut from = 0;
    while from < bytes.len() {
        let end = from + PART.min(bytes.len() - from);
        let more = continued_in_part(&bytes[from..end]);
        count += more as usize;
        from = end;
    }
    count
}

// The same of so few bytes that a byte tells their number: so vectors of bytes count them.
fn continued_in_part(bytes: &[u8]) -> u8
    requires { length bytes.now ≤ PART }
    ensures { result ≡ sum_by continued bytes.now }
{
    let mut count = 0;
    for byte in bytes {
        count += continued(*byte);
    }
    count
}

// Whether a character begins at the byte.
fn begins(byte: u8) -> bool
    ensures { result ≡ not (is_between 128 191 byte) }
{
    byte < 128 || byte > 191
}
