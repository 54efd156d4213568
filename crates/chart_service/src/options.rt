//! The options of a run. No option has an effect yet.

/// The options of a run, as the words of the command line give them.
#[derive(Clone, Copy, Debug, PartialEq, Eq)]
pub struct Options {
    /// How many threads build a chart, 1 to 16.
    pub workers: u32,
    /// How many threads read beside the edits, 1 to 16.
    pub readers: u32,
    /// How many rounds each reader runs, 1 to 1,000.
    pub rounds: u32,
    /// How many boundaries a task of the chart may span, 8 to 1,024.
    pub grain: u32,
    /// The seed of the generator, at most 4,294,967,295.
    pub seed: u64,
    /// How many tokens the generator aims at, 16 to 16,384.
    pub tokens: u32,
}
