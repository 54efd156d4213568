//! A session behind its grammar: a text is opened, edited, and asked about.
ghost use Rattle.std.specs.Prelude.{◌≡◌, ℕ, ◌≤◌, ◌^◌, List, IfOk, IsErr, IsErrOf, OnOk, OnErr};
ghost use Rattle.std.specs.Prelude.{string_bytes, []};
ghost use Rattle.cyk_io.specs.Causes.{HasCause};
ghost use Rattle.spec_script.specs.Script.{opens, edits, ask};
ghost use Rattle.spec_session.specs.GrammarReplies.{grammar_reply};
ghost use Rattle.spec_session.specs.TextRefusals.{HasTokens};
ghost use Rattle.script_reader.specs.Forms.{query_of};
ghost use Rattle.chart_service.specs.Serving.{AreAllowed};
ghost use Rattle.chart_service.specs.Sessions.{new_session, version_count, HasReply, IsNextOf};
ghost use Rattle.chart_service.specs.Sessions.{IsBlockOf, MayBeGiven, AnswersCommand};
ghost use Rattle.chart_service.specs.Sessions.{SaysReply, WritesReply, CutsReply, TellsCurrent};
ghost use Rattle.chart_service.specs.Texts.{HasTaken};

use crate::answering::answer_to;
use crate::language::Language;
use crate::options::Options;
use crate::outcomes::{AskFault, Opened, Refusal, SessionFault};
use crate::replies::Replies;
use crate::version::{Version, edited_text, opened_text, version_of};
use cell_sets::Cell;
use cyk_io::{IoFault, Sink};
use script_reader::Query;
use std::alloc::{AllocError, Global};
use std::marker::Model;
use text_store::{EditFault, Text};

/// A session under a grammar that was accepted, seen as the grammar, and the number and the text of
/// the current version, if a text is open. It keeps the current version alone.
#[derive(Drop)]
pub struct Session<C: Cell> {
    language: Language<C>,
    current: Option<Version<C>>,
}

impl<C: Cell> Model for Session<C> {
    ghost use Rattle.std.specs.Coded.{codes};
    ghost use Rattle.spec_lexing.specs.contracts.expression.Expr as expr;
    ghost use Rattle.chart_service.specs.Languages.{CanOpen};
    ghost use Rattle.chart_service.specs.Sessions.{SessionValue};
    ghost use Rattle.chart_service.specs.Texts.{session_of, KeepsVersion};

    ghost Value = { SessionValue };

    ghost coded = { Prim.hlevel (codes, expr.the_row.coded) };

    ghost view = { λ s. session_of s.language s.current };

    ghost invariant = { λ s. CanOpen C.ROOM s.language × KeepsVersion s.language s.current };
}

impl<C: Cell> Session<C> {
    /// A session in which no text was opened yet. No option has an effect. It takes no memory.
    pub fn new(language: Language<C>, _options: Options) -> Session<C>
        requires { AreAllowed _options }
        ensures { result ≡ new_session language }
    {
        language.know_can_open();
        Session {
            language,
            current: None,
        }
    }

    /// The line that accepts the grammar.
    pub(crate) fn grammar_line(&self, alloc: Global) -> Result<String, AllocError>
        ensures { IfOk result (λ text. string_bytes text ≡ grammar_reply self.now.language) }
    {
        let rules = self.language.grammar().rule_count();
        let categories = self.language.grammar().category_count();
        let kinds = self.language.grammar().kind_count();
        format!(in alloc; "grammar rules {rules} categories {categories} kinds {kinds}\n")
    }

    /// The current version, None where no text is open. It takes no memory.
    pub fn current(&self) -> Option<&Version<C>>
        ensures { TellsCurrent self.now result }
    {
        match &self.current {
            Some(version) => Some(version),
            None => None,
        }
    }

    /// The number of the next version.
    fn next_number(&self) -> u64
        requires { version_count self.now ≤ 2 ^ 63 }
        ensures { result ≡ version_count self.now }
    {
        match &self.current {
            Some(version) => version.number + 1,
            None => 0,
        }
    }

    /// Makes the text the next version. Where memory runs out the session keeps the version that it
    /// had.
    fn put(&mut self, alloc: Global, text: Text) -> Result<Opened, AllocError>
        requires few { version_count self.old ≤ 2 ^ 63 }
        requires tokens { HasTokens (self.old.language).lexicon text.bytes text.tokens }
        ensures ok { IfOk result (λ opened. IsNextOf self.old text opened self.new) }
        ensures err { IsErr result → self.new ≡ self.old }
    {
        let number = self.next_number();
        let tokens = text.token_count();
        let version = version_of(alloc, &self.language, number, text)?;
        self.current = Some(version);
        Ok(Opened { number, tokens })
    }

    /// Makes the text that was made the next version, or answers the fault. At a fault, or where
    /// memory runs out, the session keeps the version that it had.
    fn take(&mut self, alloc: Global, made: Result<Text, EditFault>) -> Result<Opened, SessionFault>
        requires few { version_count self.old ≤ 2 ^ 63 }
        requires tokens { IfOk made
            (λ text. HasTokens (self.old.language).lexicon text.bytes text.tokens) }
        ensures ok { HasTaken self.old made result self.new }
        ensures err { IsErr result → self.new ≡ self.old }
    {
        match made {
            Ok(text) => Ok(self.put(alloc, text)?),
            Err(fault) => Err(SessionFault::from(fault)),
        }
    }

    /// Opens a text of `count` bytes as version 0. `bytes` are these, or None where they are more
    /// than 1,048,576. The chart is filled at once: that of n tokens takes memory for at most
    /// n(n + 1) / 2 entries. At any fault the session is as it was.
    pub fn open(
        &mut self,
        alloc: Global,
        count: u64,
        bytes: Option<&[u8]>,
    ) -> Result<Opened, SessionFault>
        requires given { MayBeGiven count bytes }
        ensures ok { (text : List ℕ) → IsBlockOf count bytes.entry text
            → AnswersCommand self.old (opens text) result self.new }
        ensures err { IsErr result → self.new ≡ self.old }
    {
        if self.current.is_some() {
            return Err(SessionFault::Refused(Refusal::Open));
        }
        let made = opened_text(alloc, &self.language, count, bytes);
        self.take(alloc, made)
    }

    /// Replaces the `deleted` bytes of the current text from `at` on by `count` others, which makes
    /// the next version. `bytes` are the others, or None where they are more than 1,048,576. The
    /// text is cut into tokens anew, and its chart filled anew. At any fault the session has the
    /// version that it had.
    pub fn edit(
        &mut self,
        alloc: Global,
        at: u64,
        deleted: u64,
        count: u64,
        bytes: Option<&[u8]>,
    ) -> Result<Opened, SessionFault>
        requires given { MayBeGiven count bytes }
        requires few { version_count self.old ≤ 2 ^ 63 }
        ensures ok { (inserted : List ℕ) → IsBlockOf count bytes.entry inserted
            → AnswersCommand self.old (edits at deleted inserted) result self.new }
        ensures err { IsErr result → self.new ≡ self.old }
    {
        let made = match &self.current {
            Some(version) => {
                let text = &version.text;
                edited_text(alloc, &self.language, text, at, deleted, count, bytes)
            }
            None => return Err(SessionFault::Refused(Refusal::Closed)),
        };
        self.take(alloc, made)
    }

    /// Says the line that replies to the query, which is asked of the current text. Where there was
    /// no memory for it, what is gathered is written, and the answer is that.
    pub(crate) fn ask_gathered<K: Sink>(
        &self,
        alloc: Global,
        query: &Query<'_>,
        replies: &mut Replies,
        sink: &mut K,
    ) -> Result<(), IoFault>
        ensures ok { OnOk result (SaysReply (HasReply self.now (ask (query_of query.now)) self.now)
            (K.written sink.old) (K.written sink.new) replies.old replies.new) }
        ensures err { OnErr result (CutsReply (HasReply self.now (ask (query_of query.now)) self.now)
            (K.written sink.old) (K.written sink.new) replies.old) }
        ensures cause { HasCause (K.faults sink.old) (K.faults sink.new)
            (IsErrOf result IoFault.Write) }
        ensures read { IsErrOf result IoFault.Read → ⊥ }
    {
        match &self.current {
            Some(version) => {
                let text = &version.text;
                let reply = answer_to(alloc, &self.language, text, &version.chart, query);
                replies.say_reply(alloc, sink, reply, self.language.grammar(), text)
            }
            None => replies.say(sink, format!(in alloc; "refused closed\n")),
        }
    }

    /// Writes the line that replies to the query.
    fn ask_alone<K: Sink>(
        &self,
        alloc: Global,
        query: &Query<'_>,
        sink: &mut K,
    ) -> Result<(), IoFault>
        ensures ok { OnOk result
            (WritesReply (HasReply self.now (ask (query_of query.now)) self.now)
            (K.written sink.old) (K.written sink.new)) }
        ensures err { OnErr result (CutsReply (HasReply self.now (ask (query_of query.now)) self.now)
            (K.written sink.old) (K.written sink.new) []) }
        ensures cause { HasCause (K.faults sink.old) (K.faults sink.new)
            (IsErrOf result IoFault.Write) }
        ensures read { IsErrOf result IoFault.Read → ⊥ }
    {
        let mut replies = Replies::new();
        self.ask_gathered(alloc, query, &mut replies, sink)?;
        replies.flush(sink)
    }

    /// Writes the line, with its LF, that replies to the query, which is asked of the current text: an
    /// answer or a refusal. Each question is answered from the chart, and a first tree takes memory
    /// for its nodes. After an error a part of the line may be written.
    pub fn ask<K: Sink>(
        &self,
        alloc: Global,
        query: &Query<'_>,
        sink: &mut K,
    ) -> Result<(), AskFault>
        ensures ok { OnOk result
            (WritesReply (HasReply self.now (ask (query_of query.now)) self.now)
            (K.written sink.old) (K.written sink.new)) }
        ensures err { OnErr result (CutsReply (HasReply self.now (ask (query_of query.now)) self.now)
            (K.written sink.old) (K.written sink.new) []) }
        ensures cause { HasCause (K.faults sink.old) (K.faults sink.new)
            (IsErrOf result AskFault.Write) }
    {
        match self.ask_alone(alloc, query, sink) {
            Ok(()) => Ok(()),
            Err(IoFault::Memory) => Err(AskFault::Memory),
            Err(IoFault::Write) => Err(AskFault::Write),
            Err(IoFault::Read) => unreachable!(),
        }
    }
}
