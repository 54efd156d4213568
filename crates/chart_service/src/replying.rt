//! The reply to each command of a script, by the calls of its session.
ghost use Rattle.std.specs.Prelude.{◌≡◌, ℕ, ◌≤◌, ◌^◌, List, IfOk, IsErrOf, OnOk, OnErr};
ghost use Rattle.std.specs.Prelude.{string_bytes};
ghost use Rattle.cyk_io.specs.Causes.{HasCause};
ghost use Rattle.spec_script.specs.declared.limits.TheConstants.{MAX_BLOCK};
ghost use Rattle.spec_script.specs.Script.{Command as ScriptCommand};
ghost use Rattle.script_reader.specs.Reading.{IsBlock};
ghost use Rattle.chart_service.specs.Sessions.{version_count, opened_line, refused_line};
ghost use Rattle.chart_service.specs.Sessions.{HasReply, IsBlockOf, SaysReply, CutsReply};
ghost use Rattle.chart_service.specs.Replying.{IsCommand, CanReply, IsAnswerLine};

use crate::outcomes::{Opened, Refusal, SessionFault};
use crate::replies::Replies;
use crate::session::Session;
use cell_sets::Cell;
use cyk_io::{IoFault, Sink};
use script_reader::{Block, Command};
use std::alloc::{AllocError, Global};

/// The length of the block, and its bytes where they were kept.
fn given(block: &Block) -> (u64, Option<&[u8]>)
    ensures { (bytes : List ℕ) → IsBlock MAX_BLOCK block.now bytes
        → IsBlockOf result.0 result.1 bytes }
{
    match block {
        Block::Kept(bytes) => (bytes.len() as u64, Some(bytes.as_slice())),
        Block::TooLong(count) => (u64::from(*count), None),
    }
}

/// The line that refuses a text or an edit.
fn refused_line(alloc: Global, refusal: Refusal) -> Result<String, AllocError>
    ensures { IfOk result (λ text. string_bytes text ≡ refused_line refusal) }
{
    match refusal {
        Refusal::Closed => format!(in alloc; "refused closed\n"),
        Refusal::Open => format!(in alloc; "refused open\n"),
        Refusal::Range { len } => format!(in alloc; "refused range {len}\n"),
        Refusal::Utf8 { at } => format!(in alloc; "refused utf8 {at}\n"),
        Refusal::Full => format!(in alloc; "refused full\n"),
    }
}

/// The line that tells a version.
fn version_line(alloc: Global, opened: Opened) -> Result<String, AllocError>
    ensures { IfOk result (λ text. string_bytes text ≡ opened_line opened) }
{
    let Opened { number, tokens } = opened;
    format!(in alloc; "version {number} tokens {tokens}\n")
}

/// The line that tells what a session answered. There is none for want of memory.
fn answer_line(alloc: Global, answer: Result<Opened, SessionFault>) -> Result<String, AllocError>
    ensures { IfOk result (λ text. IsAnswerLine answer (string_bytes text)) }
{
    match answer {
        Ok(opened) => version_line(alloc, opened),
        Err(SessionFault::Memory) => Err(AllocError),
        Err(SessionFault::Refused(refusal)) => refused_line(alloc, refusal),
    }
}

/// Says the line that tells what a session answered.
fn say_answer<K: Sink>(
    alloc: Global,
    replies: &mut Replies,
    sink: &mut K,
    answer: Result<Opened, SessionFault>,
) -> Result<(), IoFault>
    ensures ok { OnOk result (SaysReply (IsAnswerLine answer)
        (K.written sink.old) (K.written sink.new) replies.old replies.new) }
    ensures err { OnErr result (CutsReply (IsAnswerLine answer)
        (K.written sink.old) (K.written sink.new) replies.old) }
    ensures cause { HasCause (K.faults sink.old) (K.faults sink.new)
        (IsErrOf result IoFault.Write) }
    ensures read { IsErrOf result IoFault.Read → ⊥ }
{
    replies.say(sink, answer_line(alloc, answer))
}

/// Replies to the command by the session's calls.
pub(crate) fn reply_to<K: Sink, C: Cell>(
    alloc: Global,
    session: &mut Session<C>,
    replies: &mut Replies,
    sink: &mut K,
    command: Command<'_>,
) -> Result<(), IoFault>
    requires can_reply { CanReply command }
    requires few { version_count session.old ≤ 2 ^ 63 }
    ensures ok { (meaning : ScriptCommand) → IsCommand command.entry meaning
        → OnOk result (SaysReply (HasReply session.old meaning session.new)
        (K.written sink.old) (K.written sink.new) replies.old replies.new) }
    ensures err { (meaning : ScriptCommand) → IsCommand command.entry meaning
        → OnErr result (CutsReply (HasReply session.old meaning session.new)
        (K.written sink.old) (K.written sink.new) replies.old) }
    ensures cause { HasCause (K.faults sink.old) (K.faults sink.new)
        (IsErrOf result IoFault.Write) }
    ensures read { IsErrOf result IoFault.Read → ⊥ }
{
    match command {
        Command::Open(block) => {
            let (count, bytes) = given(&block);
            let answer = session.open(alloc, count, bytes);
            say_answer(alloc, replies, sink, answer)
        }
        Command::Edit { at, deleted, block } => {
            let (count, bytes) = given(&block);
            let answer = session.edit(alloc, u64::from(at), u64::from(deleted), count, bytes);
            say_answer(alloc, replies, sink, answer)
        }
        Command::Ask(query) => session.ask_gathered(alloc, &query, replies, sink),
        Command::End => unreachable!(),
    }
}
