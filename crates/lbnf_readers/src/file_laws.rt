//! Laws of the tokens of a grammar file. Each is the contract of a function with an empty body.
ghost use Rattle.lbnf_readers.specs.FileLaws.{HasOneToken, HasOneSpace, HasTokenOrSpace};
ghost use Rattle.lbnf_readers.specs.FileLaws.{HasOneScan, HasSomeScan, HasRisingOffsets};

/// Bytes begin with at most one longest token, or else with at most one white byte or comment.
pub fn one_token_or_space()
    ensures token { HasOneToken }
    ensures space { HasOneSpace }
    ensures either { HasTokenOrSpace }
{}

/// A file has at most one list of tokens, up to one offset.
pub fn one_scan()
    ensures { HasOneScan }
{}

/// A file has tokens, up to some offset, whether or not it is UTF-8.
pub fn some_scan()
    ensures { HasSomeScan }
{}

/// The offsets of a file's tokens rise and lie before the offset up to which they reach, which is
/// at most the file's length.
pub fn tokens_rise()
    ensures { HasRisingOffsets }
{}
