//! Serving a script: each reply is written before the source is read again.
ghost use Rattle.std.specs.Prelude.{◌≡◌, ◌^◌, ◌<◌, ◌≤◌, ◌↔◌, ℕ, List, [], Some, IsTrue};
ghost use Rattle.std.specs.Prelude.{IfOk, IfErr, OnOk, string_bytes};
ghost use Rattle.spec_text.specs.declared.limits.TheConstants.{MAX_SYMBOLS};
ghost use Rattle.spec_script.specs.Script.{ended, broken};
ghost use Rattle.spec_session.specs.Sessions.{last_line};
ghost use Rattle.cyk_io.specs.Causes.{HasCause};
ghost use Rattle.cyk_io.specs.Streams.{coming};
ghost use Rattle.chart_service.specs.Serving.{AreAllowed, WritesSession, IsStatus};
ghost use Rattle.chart_service.specs.Sessions.{version_count};
ghost use Rattle.chart_service.specs.Progress.{Running, HasEnded, EndsEarly, Ends, HasAccepted};
ghost use Rattle.chart_service.specs.Progress.{IsFresh, GoesOnOrHasEnded, GoesForward};
ghost use Rattle.chart_service.specs.Progress.{IsReadFault, IsWriteFault};
ghost use Rattle.script_reader.specs.declared.command.Command.TheVariants.{End};

use crate::accepting::language_in;
use crate::ending::EarlyEnd;
use crate::options::Options;
use crate::refusals::refusal_line;
use crate::replies::Replies;
use crate::replying::reply_to;
use crate::session::Session;
use crate::status::Status;
use cell_sets::{Cell, ListCell};
use cyk_io::{Ahead, Line, Sink, Source};
use script_reader::{Command, Stop, read_command, read_grammar, read_head, read_header};
use spec_text::MAX_LINE;
use std::alloc::{AllocError, Global};
use std::sync::ledger::Ledger;
use step_count::Steps;

/// Reads the header and the grammar, and accepts it.
fn accept<S: Source, C: Cell>(
    alloc: Global,
    options: &Options,
    source: &mut S,
    ahead: &mut Ahead,
    line: &mut Line<MAX_LINE>,
) -> Result<Session<C>, EarlyEnd>
    requires room { MAX_SYMBOLS ≤ C.ROOM }
    requires fits { AreAllowed options.now }
    requires start { ahead.old.offset ≡ 0 }
    ensures ok { (input : List ℕ) → coming ahead.old (S.left source.old) ≡ Some input
        → IfOk result (λ session. HasAccepted input (coming ahead.new (S.left source.new))
        ahead.new.offset session.language) }
    ensures fresh { IfOk result IsFresh }
    ensures err { (input before : List ℕ) → coming ahead.old (S.left source.old) ≡ Some input
        → IfErr result (EndsEarly input before (Some before) []) }
    ensures read { HasCause (S.faults source.old) (S.faults source.new) (IsReadFault result) }
    ensures write { IsWriteFault result → ⊥ }
    ensures range { OnOk result (ahead.new.offset < 2 ^ 50) }
{
    read_header(source, ahead, line)?;
    let block = read_grammar(alloc, source, ahead, line)?;
    match language_in(alloc, &block) {
        Ok(language) => Ok(Session::new(language, *options)),
        Err(fault) => Err(EarlyEnd::Refused(fault)),
    }
}

/// Begins the session: accepts its grammar and replies to it.
fn begin<S: Source, K: Sink, C: Cell>(
    alloc: Global,
    options: &Options,
    source: &mut S,
    sink: &mut K,
    ahead: &mut Ahead,
    line: &mut Line<MAX_LINE>,
    replies: &mut Replies,
) -> Result<Session<C>, EarlyEnd>
    requires room { MAX_SYMBOLS ≤ C.ROOM }
    requires fits { AreAllowed options.now }
    requires start { ahead.old.offset ≡ 0 }
    requires none { replies.old ≡ [] }
    ensures ok { (input before : List ℕ) → coming ahead.old (S.left source.old) ≡ Some input
        → K.written sink.old ≡ Some before
        → IfOk result (Running input before (coming ahead.new (S.left source.new))
        ahead.new.offset (K.written sink.new) replies.new) }
    ensures err { (input before : List ℕ) → coming ahead.old (S.left source.old) ≡ Some input
        → K.written sink.old ≡ Some before
        → IfErr result (EndsEarly input before (K.written sink.new) replies.new) }
    ensures fresh { IfOk result IsFresh }
    ensures read { HasCause (S.faults source.old) (S.faults source.new) (IsReadFault result) }
    ensures write { HasCause (K.faults sink.old) (K.faults sink.new) (IsWriteFault result) }
    ensures range { OnOk result (ahead.new.offset < 2 ^ 50) }
{
    let session: Session<C> = accept(alloc, options, source, ahead, line)?;
    replies.say(sink, session.grammar_line(alloc))?;
    Ok(session)
}

/// Whether the line `end` was read.
fn is_end(command: &Command<'_>) -> bool
    ensures { IsTrue result ↔ (command.now ≡ End) }
{
    matches!(command, Command::End)
}

/// Reads the next command and replies to it. Answers false behind the line `end`. A reply waits
/// with others while the next line is held, and is written before the source is read again; the
/// line of a text or an edit may be held and its block not, so no reply waits for a block.
fn turn<S: Source, K: Sink, C: Cell>(
    alloc: Global,
    source: &mut S,
    sink: &mut K,
    ahead: &mut Ahead,
    line: &mut Line<MAX_LINE>,
    replies: &mut Replies,
    session: &mut Session<C>,
) -> Result<bool, EarlyEnd>
    requires few { version_count session.old ≤ ahead.old.offset }
    requires early { ahead.old.offset < 2 ^ 50 }
    ensures ok { (input before : List ℕ)
        → Running input before (coming ahead.old (S.left source.old)) ahead.old.offset
        (K.written sink.old) replies.old session.old
        → IfOk result (GoesOnOrHasEnded input before (coming ahead.new (S.left source.new))
        ahead.new.offset (K.written sink.new) replies.new session.new) }
    ensures err { (input before : List ℕ)
        → Running input before (coming ahead.old (S.left source.old)) ahead.old.offset
        (K.written sink.old) replies.old session.old
        → IfErr result (EndsEarly input before (K.written sink.new) replies.new) }
    ensures read { HasCause (S.faults source.old) (S.faults source.new) (IsReadFault result) }
    ensures write { HasCause (K.faults sink.old) (K.faults sink.new) (IsWriteFault result) }
    ensures range { OnOk result (GoesForward ahead.old.offset ahead.new.offset) }
    ensures few { OnOk result (version_count session.new ≤ ahead.new.offset) }
{
    replies.flush_unless(sink, ahead.has_line())?;
    let head = read_head(source, ahead, line)?;
    replies.flush_unless(sink, !head.has_block())?;
    let command = read_command(alloc, source, ahead, head)?;
    if is_end(&command) {
        return Ok(false);
    }
    reply_to(alloc, session, replies, sink, command)?;
    Ok(true)
}

/// Replies to command after command, up to the session's end.
fn reply_all<S: Source, K: Sink, C: Cell>(
    alloc: Global,
    source: &mut S,
    sink: &mut K,
    ahead: &mut Ahead,
    line: &mut Line<MAX_LINE>,
    replies: &mut Replies,
    session: &mut Session<C>,
) -> Result<(), EarlyEnd>
    requires few { version_count session.old ≤ ahead.old.offset }
    requires early { ahead.old.offset < 2 ^ 50 }
    ensures ok { (input before : List ℕ)
        → Running input before (coming ahead.old (S.left source.old)) ahead.old.offset
        (K.written sink.old) replies.old session.old
        → OnOk result (HasEnded input before (K.written sink.new) replies.new) }
    ensures err { (input before : List ℕ)
        → Running input before (coming ahead.old (S.left source.old)) ahead.old.offset
        (K.written sink.old) replies.old session.old
        → IfErr result (EndsEarly input before (K.written sink.new) replies.new) }
    ensures read { HasCause (S.faults source.old) (S.faults source.new) (IsReadFault result) }
    ensures write { HasCause (K.faults sink.old) (K.faults sink.new) (IsWriteFault result) }
{
    loop {
        let goes_on = turn(alloc, source, sink, ahead, line, replies, session)?;
        if !goes_on {
            return Ok(());
        }
    }
}

/// Runs the session up to its last line, which is still to be said.
fn run<S: Source, K: Sink, C: Cell>(
    alloc: Global,
    options: &Options,
    source: &mut S,
    sink: &mut K,
    replies: &mut Replies,
) -> Result<(), EarlyEnd>
    requires room { MAX_SYMBOLS ≤ C.ROOM }
    requires fits { AreAllowed options.now }
    requires none { replies.old ≡ [] }
    ensures ok { (input before : List ℕ) → S.left source.old ≡ Some input
        → K.written sink.old ≡ Some before
        → OnOk result (HasEnded input before (K.written sink.new) replies.new) }
    ensures err { (input before : List ℕ) → S.left source.old ≡ Some input
        → K.written sink.old ≡ Some before
        → IfErr result (EndsEarly input before (K.written sink.new) replies.new) }
    ensures read { HasCause (S.faults source.old) (S.faults source.new) (IsReadFault result) }
    ensures write { HasCause (K.faults sink.old) (K.faults sink.new) (IsWriteFault result) }
{
    let mut ahead = Ahead::new();
    let mut line = Line::new();
    let mut session: Session<C> = begin(
        alloc, options, source, sink, &mut ahead, &mut line, replies,
    )?;
    reply_all(
        alloc,
        source,
        sink,
        &mut ahead,
        &mut line,
        replies,
        &mut session,
    )
}

/// The last line behind the line `end`.
fn end_line(alloc: Global) -> Result<String, AllocError>
    ensures { IfOk result (λ text. string_bytes text ≡ last_line ended) }
{
    format!(in alloc; "end\n")
}

/// The line that refuses the script at this offset.
fn broken_line(alloc: Global, at: u64) -> Result<String, AllocError>
    ensures { IfOk result (λ text. string_bytes text ≡ last_line (broken at)) }
{
    format!(in alloc; "script refused {at}\n")
}

/// Runs the session, writes its last line, and answers how it ended.
fn conclude<S: Source, K: Sink, C: Cell>(
    alloc: Global,
    options: &Options,
    source: &mut S,
    sink: &mut K,
) -> Status
    requires room { MAX_SYMBOLS ≤ C.ROOM }
    requires fits { AreAllowed options.now }
    ensures ok { (input before : List ℕ) → S.left source.old ≡ Some input
        → K.written sink.old ≡ Some before
        → Ends input before (K.written sink.new) result }
    ensures read { HasCause (S.faults source.old) (S.faults source.new)
        (result ≡ Status.ReadFault) }
    ensures write { HasCause (K.faults sink.old) (K.faults sink.new) (result ≡ Status.WriteFault) }
{
    let mut replies = Replies::new();
    match run::<S, K, C>(alloc, options, source, sink, &mut replies) {
        Ok(()) => replies.finish(sink, end_line(alloc), Status::Ended),
        Err(EarlyEnd::Refused(fault)) => {
            replies.finish(sink, refusal_line(alloc, &fault), Status::BadGrammar)
        }
        Err(EarlyEnd::Stopped(Stop::Breaks(at))) => {
            replies.finish(sink, broken_line(alloc, at), Status::BadScript)
        }
        Err(EarlyEnd::Stopped(Stop::Fault(fault))) => Status::from(fault),
    }
}

/// Runs the session that the source's script defines, and answers its exit status: 0 where the
/// script was read through its line `end`, 2 where the grammar is refused, 3 where the script is
/// broken, 4 and 5 at a fault of the source and of the sink, 6 for want of memory. `joins` is for
/// the chart's joins; no join is counted. The options change nothing that is written.
///
/// No clause says what follows. Each reply is written before the source is read again; up to 4,096
/// bytes may have been read ahead by then, and the replies to what they hold go out together. The
/// chart of n tokens takes memory for at most n(n + 1) / 2 entries.
pub fn serve<S: Source, K: Sink, L: Ledger>(
    alloc: Global,
    options: &Options,
    source: &mut S,
    sink: &mut K,
    joins: &mut Steps<L>,
) -> u8
    requires fits { AreAllowed options.now }
    ensures ok { WritesSession (S.left source.old) (K.written sink.old)
        (K.written sink.new) result }
    ensures status { IsStatus result }
    ensures read { HasCause (S.faults source.old) (S.faults source.new) (result ≡ 4) }
    ensures write { HasCause (K.faults sink.old) (K.faults sink.new) (result ≡ 5) }
    ensures cost { joins.new ≡ joins.old }
{
    conclude::<S, K, ListCell>(alloc, options, source, sink).number()
}
