//! Laws of the definitions that the contracts cite, each on a function that does nothing.
ghost use Rattle.cyk_io.specs.Blocks.{EachBlockHasAnAnswer, EachBlockHasOneAnswer};
ghost use Rattle.cyk_io.specs.Lines.{EachLineHasAnAnswer, EachLineHasOneAnswer};

/// Where a source tells its bytes, just one answer describes a read of a line that does not fail.
/// So `LongLine` comes exactly where the next `N + 1` bytes hold no LF, and `Ended` exactly where
/// the input ends before an LF and within `N` bytes.
pub fn each_line_has_one_answer()
    ensures some { EachLineHasAnAnswer }
    ensures one { EachLineHasOneAnswer }
{}

/// Where a source tells its bytes, just one answer describes a read of a block that does not fail.
/// So `Ended` comes exactly where fewer than `count` bytes are left, and `Skipped` exactly where
/// that many bytes are passed over and are more than `keep`.
pub fn each_block_has_one_answer()
    ensures some { EachBlockHasAnAnswer }
    ensures one { EachBlockHasOneAnswer }
{}
