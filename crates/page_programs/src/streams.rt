//! What a run of a command reads and writes.

/// What it changes besides its input.
#[derive(Drop)]
pub struct Outputs<F, W, V> {
    /// The files that the command line names.
    pub files: F,
    /// Standard output.
    pub output: W,
    /// Standard error.
    pub faults: V,
}

/// All that it reads and writes.
#[derive(Drop)]
pub struct Streams<R, F, W, V> {
    /// Standard input.
    pub input: R,
    /// All else.
    pub outputs: Outputs<F, W, V>,
}
