//! Reading a script from a source, one part at a time: its line, and the block that the line tells.
ghost use Rattle.std.specs.Prelude.{◌≡◌, ◌+◌, ◌^◌, ◌<◌, ◌≤◌, ◌++◌, ◌∷◌, ◌↔◌, [], ℕ, List};
ghost use Rattle.std.specs.Prelude.{Option};
ghost use Rattle.std.specs.Prelude.{IsTrue, IfOk, IfErr, OnOk, IsErrOf, MatchOption};
ghost use Rattle.std.specs.Prelude.{codes};
ghost use Rattle.cyk_io.specs.Causes.{HasCause};
ghost use Rattle.cyk_io.specs.Streams.{coming};
ghost use Rattle.cyk_io.specs.declared.fault.IoFault.TheVariants.{Read};
ghost use Rattle.spec_script.specs.Script.{Script, nothing, header_alone, header, any_order};
ghost use Rattle.spec_script.specs.Script.{IsComplete};
ghost use Rattle.script_reader.specs.declared.stop.Stop.TheVariants.{Fault};
ghost use Rattle.script_reader.specs.Reading.{TakesPart, TakesGrammar, TakesHead, TakesCommand};
ghost use Rattle.script_reader.specs.Reading.{StopsBehind};
ghost use Rattle.script_reader.specs.LinesAndBlocks.{TakesLine, TakesGrammarLine, TakesBlock};
ghost use Rattle.script_reader.specs.LinesAndBlocks.{StopsInBlock, PassesBlock, FindsBlock};

use crate::command::{Block, Command, Head};
use crate::forms::{MAX_NUMBER, count_behind, head_of};
use crate::stop::Stop;
use cyk_io::{Ahead, Line, ReadBlock, ReadLine, Source, read_exact_n, read_line};
use spec_script::MAX_BLOCK;
use spec_text::{MAX_FILE, MAX_LINE, MAX_OFFSET};
use std::alloc::Global;

/// Reads the next line.
fn next_line<S: Source>(
    source: &mut S,
    ahead: &mut Ahead,
    line: &mut Line<MAX_LINE>,
) -> Result<(), Stop>
    requires early { ahead.old.offset < 2 ^ 62 }
    ensures ok { OnOk result (TakesLine ahead.old.offset ahead.new.offset
        (coming ahead.old (S.left source.old)) (coming ahead.new (S.left source.new)) line.new) }
    ensures err { (script : Script) → IfErr result (StopsBehind script ahead.old.offset
        (coming ahead.old (S.left source.old))) }
    ensures cause { HasCause (S.faults source.old) (S.faults source.new)
        (IsErrOf result (Fault Read)) }
    ensures range { ahead.new.offset ≤ ahead.old.offset + 257 }
{
    let at = ahead.offset();
    if at >= MAX_OFFSET {
        return Err(Stop::Breaks(at));
    }
    match read_line(source, ahead, line)? {
        ReadLine::Line => Ok(()),
        ReadLine::LongLine(_) => Err(Stop::Breaks(at)),
        ReadLine::Ended(end) => Err(Stop::Breaks(end)),
    }
}

/// Whether the line is that of the header.
fn is_header(line: &[u8]) -> bool
    ensures { IsTrue result ↔ (line.now ≡ codes "script 1") }
{
    line == b"script 1".as_slice()
}

/// Reads the header, the line `script 1`. It takes no memory.
pub fn read_header<S: Source>(
    source: &mut S,
    ahead: &mut Ahead,
    line: &mut Line<MAX_LINE>,
) -> Result<(), Stop>
    requires early { ahead.old.offset < 2 ^ 60 }
    ensures ok { OnOk result (TakesPart ahead.old.offset ahead.new.offset
        (coming ahead.old (S.left source.old)) (coming ahead.new (S.left source.new)) header) }
    ensures err { IfErr result (StopsBehind nothing ahead.old.offset
        (coming ahead.old (S.left source.old))) }
    ensures cause { HasCause (S.faults source.old) (S.faults source.new)
        (IsErrOf result (Fault Read)) }
    ensures range { OnOk result
        ((ahead.old.offset < ahead.new.offset) × (ahead.new.offset < 2 ^ 50)) }
{
    let at = ahead.offset();
    next_line(source, ahead, line)?;
    if !is_header(line.as_bytes()) {
        return Err(Stop::Breaks(at));
    }
    Ok(())
}

/// Reads the line of a grammar, which tells how many bytes its block has.
fn read_grammar_line<S: Source>(
    source: &mut S,
    ahead: &mut Ahead,
    line: &mut Line<MAX_LINE>,
) -> Result<u32, Stop>
    requires early { ahead.old.offset < 2 ^ 62 }
    ensures ok { IfOk result (TakesGrammarLine ahead.old.offset ahead.new.offset
        (coming ahead.old (S.left source.old)) (coming ahead.new (S.left source.new))) }
    ensures err { IfErr result (StopsBehind header_alone ahead.old.offset
        (coming ahead.old (S.left source.old))) }
    ensures cause { HasCause (S.faults source.old) (S.faults source.new)
        (IsErrOf result (Fault Read)) }
    ensures range { ahead.new.offset ≤ ahead.old.offset + 257 }
{
    let at = ahead.offset();
    next_line(source, ahead, line)?;
    count_behind(line.as_bytes(), b"grammar ".as_slice(), MAX_NUMBER).ok_or(Stop::Breaks(at))
}

/// The bytes without the LF that they end in.
fn without_lf(mut bytes: Vec<u8>) -> Option<Vec<u8>>
    ensures { MatchOption result ((block : List ℕ) → bytes.items ≡ block ++ 10 ∷ [] → ⊥)
        (λ block. bytes.items ≡ block.items ++ 10 ∷ []) }
{
    match bytes.pop() {
        Some(b'\n') => Some(bytes),
        _ => None,
    }
}

/// Reads and keeps a block of so many bytes, and reads its LF.
fn keep_block<S: Source>(
    alloc: Global,
    source: &mut S,
    ahead: &mut Ahead,
    count: u32,
) -> Result<Vec<u8>, Stop>
    requires early { ahead.old.offset < 2 ^ 62 }
    ensures ok { IfOk result (λ block. TakesBlock count ahead.old.offset ahead.new.offset
        (coming ahead.old (S.left source.old)) (coming ahead.new (S.left source.new))
        block.items) }
    ensures err { IfErr result (StopsInBlock count ahead.old.offset
        (coming ahead.old (S.left source.old))) }
    ensures cause { HasCause (S.faults source.old) (S.faults source.new)
        (IsErrOf result (Fault Read)) }
{
    let lf = ahead.offset() + u64::from(count);
    let whole = u64::from(count) + 1;
    let mut bytes = Vec::new(alloc);
    match read_exact_n(source, ahead, whole, whole, &mut bytes)? {
        ReadBlock::Kept => without_lf(bytes).ok_or(Stop::Breaks(lf)),
        ReadBlock::Skipped => unreachable!(),
        ReadBlock::Ended(end) => Err(Stop::Breaks(end)),
    }
}

/// Passes over a block of so many bytes and its LF.
fn pass_block<S: Source>(
    alloc: Global,
    source: &mut S,
    ahead: &mut Ahead,
    count: u32,
) -> Result<(), Stop>
    requires some { 0 < count }
    requires early { ahead.old.offset < 2 ^ 61 }
    ensures ok { OnOk result (PassesBlock count ahead.old.offset ahead.new.offset
        (coming ahead.old (S.left source.old)) (coming ahead.new (S.left source.new))) }
    ensures err { IfErr result (StopsInBlock count ahead.old.offset
        (coming ahead.old (S.left source.old))) }
    ensures cause { HasCause (S.faults source.old) (S.faults source.new)
        (IsErrOf result (Fault Read)) }
{
    let mut bytes = Vec::new(alloc);
    match read_exact_n(source, ahead, u64::from(count), 0, &mut bytes)? {
        ReadBlock::Skipped => {}
        ReadBlock::Kept => unreachable!(),
        ReadBlock::Ended(end) => return Err(Stop::Breaks(end)),
    }
    keep_block(alloc, source, ahead, 0)?;
    Ok(())
}

/// Reads a block of so many bytes and its LF. One of more than `most` bytes is passed over.
fn read_block<S: Source>(
    alloc: Global,
    source: &mut S,
    ahead: &mut Ahead,
    most: usize,
    count: u32,
) -> Result<Block, Stop>
    requires early { ahead.old.offset < 2 ^ 61 }
    ensures ok { IfOk result (FindsBlock most count ahead.old.offset ahead.new.offset
        (coming ahead.old (S.left source.old)) (coming ahead.new (S.left source.new))) }
    ensures err { IfErr result (StopsInBlock count ahead.old.offset
        (coming ahead.old (S.left source.old))) }
    ensures cause { HasCause (S.faults source.old) (S.faults source.new)
        (IsErrOf result (Fault Read)) }
{
    if count as usize > most {
        pass_block(alloc, source, ahead, count)?;
        return Ok(Block::TooLong(count));
    }
    let block = keep_block(alloc, source, ahead, count)?;
    Ok(Block::Kept(block))
}

/// Reads the part `grammar` with its block. One of more than 65,536 bytes is passed over, which
/// takes a byte of memory, for its LF; any other takes as much as it has bytes.
pub fn read_grammar<S: Source>(
    alloc: Global,
    source: &mut S,
    ahead: &mut Ahead,
    line: &mut Line<MAX_LINE>,
) -> Result<Block, Stop>
    requires early { ahead.old.offset < 2 ^ 60 }
    ensures ok { IfOk result (TakesGrammar ahead.old.offset ahead.new.offset
        (coming ahead.old (S.left source.old)) (coming ahead.new (S.left source.new))) }
    ensures err { IfErr result (StopsBehind header_alone ahead.old.offset
        (coming ahead.old (S.left source.old))) }
    ensures cause { HasCause (S.faults source.old) (S.faults source.new)
        (IsErrOf result (Fault Read)) }
    ensures range { OnOk result
        ((ahead.old.offset < ahead.new.offset) × (ahead.new.offset < 2 ^ 50)) }
{
    let count = read_grammar_line(source, ahead, line)?;
    read_block(alloc, source, ahead, MAX_FILE, count)
}

/// Reads the line of the next command behind a grammar, or the line `end`. It takes no memory. The
/// names of a question are slices of `line`.
pub fn read_head<'a, S: Source>(
    source: &mut S,
    ahead: &mut Ahead,
    line: &'a mut Line<MAX_LINE>,
) -> Result<Head<'a>, Stop>
    requires early { ahead.old.offset < 2 ^ 60 }
    ensures ok { IfOk result (TakesHead ahead.old.offset ahead.new.offset
        (coming ahead.old (S.left source.old)) (coming ahead.new (S.left source.new))) }
    ensures err { (script : Script) → IsComplete any_order script
        → IfErr result (StopsBehind script ahead.old.offset
        (coming ahead.old (S.left source.old))) }
    ensures cause { HasCause (S.faults source.old) (S.faults source.new)
        (IsErrOf result (Fault Read)) }
    ensures range { ahead.new.offset ≤ ahead.old.offset + 257 }
{
    let at = ahead.offset();
    next_line(source, ahead, line)?;
    head_of(line.as_bytes()).ok_or(Stop::Breaks(at))
}

/// Reads what stands behind the line of a command: its block, where it has one, with the LF. A block
/// of more than 1,048,576 bytes is passed over, which takes a byte of memory, for its LF; any other
/// takes as much as it has bytes.
pub fn read_command<'a, S: Source>(
    alloc: Global,
    source: &mut S,
    ahead: &mut Ahead,
    head: Head<'a>,
) -> Result<Command<'a>, Stop>
    requires early { ahead.old.offset < 2 ^ 61 }
    ensures ok { (at : ℕ) (before : Option (List ℕ))
        → TakesHead at ahead.old.offset before (coming ahead.old (S.left source.old)) head.entry
        → IfOk result (TakesCommand at ahead.new.offset before
        (coming ahead.new (S.left source.new))) }
    ensures err { (at : ℕ) (before : Option (List ℕ))
        → TakesHead at ahead.old.offset before (coming ahead.old (S.left source.old)) head.entry
        → (script : Script) → IsComplete any_order script
        → IfErr result (StopsBehind script at before) }
    ensures cause { HasCause (S.faults source.old) (S.faults source.new)
        (IsErrOf result (Fault Read)) }
{
    match head {
        Head::Open(count) => {
            let block = read_block(alloc, source, ahead, MAX_BLOCK, count)?;
            Ok(Command::Open(block))
        }
        Head::Edit(splice) => {
            let block = read_block(alloc, source, ahead, MAX_BLOCK, splice.count)?;
            Ok(Command::Edit {
                at: splice.at,
                deleted: splice.deleted,
                block,
            })
        }
        Head::Ask(query) => Ok(Command::Ask(query)),
        Head::End => Ok(Command::End),
    }
}
