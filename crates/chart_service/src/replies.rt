//! The replies of a session, which are gathered and go to the sink together.
ghost use Rattle.std.specs.Prelude.{◌≡◌, ℕ, ◌++◌, [], IfOk, IsErrOf, IfErr, OnOk, OnErr};
ghost use Rattle.cyk_io.specs.Causes.{HasCause};
ghost use Rattle.cyk_io.specs.Streams.{Grows, GrowsByPrefix};
ghost use Rattle.spec_session.specs.Lines.{as_line};
ghost use Rattle.first_tree.specs.Printing.{IsTreeIn, text_of};
ghost use Rattle.chart_service.specs.Replies.{line_in, bytes_in, Passes, Says, SaysBy};
ghost use Rattle.chart_service.specs.Replies.{WritesOut, Finishes};
ghost use Rattle.chart_service.specs.Replying.{reply_bytes, IsPrintable};

use crate::reply::Reply;
use crate::status::Status;
use cyk_io::{Gathered, IoFault, Sink};
use first_tree::{Tree, print_gathered};
use lbnf_grammar::Grammar;
use std::alloc::{AllocError, Global};
use std::marker::Model;
use text_store::Text;

/// What was said and is not written yet, seen as the list of its bytes. After an error nothing more
/// may be said, since a part of the bytes may be written.
#[derive(Drop)]
pub(crate) struct Replies {
    gathered: Gathered,
}

impl Model for Replies {
    ghost use Rattle.std.specs.Prelude.{List, ℕ};

    ghost Value = { List ℕ };

    ghost view = { λ r. r.gathered };
}

impl Replies {
    /// Nothing is gathered. It takes no memory.
    pub(crate) fn new() -> Replies
        ensures { result ≡ [] }
    {
        Replies {
            gathered: Gathered::new(),
        }
    }

    /// Writes what is gathered.
    pub(crate) fn flush<K: Sink>(&mut self, sink: &mut K) -> Result<(), IoFault>
        ensures empty { self.new ≡ [] }
        ensures ok { OnOk result (Grows (K.written sink.old) (K.written sink.new) self.old) }
        ensures err { OnErr result
            (GrowsByPrefix (K.written sink.old) (K.written sink.new) self.old) }
        ensures cause { HasCause (K.faults sink.old) (K.faults sink.new)
            (IsErrOf result IoFault.Write) }
        ensures read { IsErrOf result IoFault.Read → ⊥ }
    {
        self.gathered.flush(sink)
    }

    /// Writes what is gathered, unless what is read next is held already, so that nothing waits
    /// while the source is read.
    pub(crate) fn flush_unless<K: Sink>(
        &mut self,
        sink: &mut K,
        is_held: bool,
    ) -> Result<(), IoFault>
        ensures ok { OnOk result
            (Passes (K.written sink.old) (K.written sink.new) self.old [] self.new) }
        ensures err { OnErr result
            (GrowsByPrefix (K.written sink.old) (K.written sink.new) self.old) }
        ensures cause { HasCause (K.faults sink.old) (K.faults sink.new)
            (IsErrOf result IoFault.Write) }
        ensures read { IsErrOf result IoFault.Read → ⊥ }
    {
        if is_held {
            return Ok(());
        }
        self.flush(sink)
    }

    /// Says the line. Where there was no memory for it, what is gathered is written, and the answer
    /// is that.
    pub(crate) fn say<K: Sink>(
        &mut self,
        sink: &mut K,
        line: Result<String, AllocError>,
    ) -> Result<(), IoFault>
        ensures ok { OnOk result
            (Says line (K.written sink.old) (K.written sink.new) self.old self.new) }
        ensures err { OnErr result
            (GrowsByPrefix (K.written sink.old) (K.written sink.new) (self.old ++ line_in line)) }
        ensures cause { HasCause (K.faults sink.old) (K.faults sink.new)
            (IsErrOf result IoFault.Write) }
        ensures read { IsErrOf result IoFault.Read → ⊥ }
    {
        match line {
            Ok(text) => self.gathered.add(sink, text.as_bytes()),
            Err(_) => {
                self.flush(sink)?;
                Err(IoFault::Memory)
            }
        }
    }

    /// Says the printed text of the tree as a line, piece by piece, so that it is nowhere kept whole.
    pub(crate) fn say_tree<K: Sink>(
        &mut self,
        alloc: Global,
        sink: &mut K,
        tree: &Tree,
        grammar: &Grammar,
        text: &Text,
    ) -> Result<(), IoFault>
        requires fits { IsTreeIn grammar.now text.now tree.now }
        ensures ok { OnOk result (Passes (K.written sink.old) (K.written sink.new) self.old
            (as_line (text_of grammar.now text.now tree.now)) self.new) }
        ensures err { OnErr result (GrowsByPrefix (K.written sink.old) (K.written sink.new)
            (self.old ++ as_line (text_of grammar.now text.now tree.now))) }
        ensures cause { HasCause (K.faults sink.old) (K.faults sink.new)
            (IsErrOf result IoFault.Write) }
        ensures read { IsErrOf result IoFault.Read → ⊥ }
    {
        print_gathered(alloc, tree, grammar, text, &mut self.gathered, sink)?;
        self.gathered.add(sink, b"\n".as_slice())
    }

    /// Says the reply to a question on the text. Where there was no memory for it, what is gathered
    /// is written, and the answer is that.
    pub(crate) fn say_reply<K: Sink>(
        &mut self,
        alloc: Global,
        sink: &mut K,
        reply: Result<Reply, AllocError>,
        grammar: &Grammar,
        text: &Text,
    ) -> Result<(), IoFault>
        requires fits { IfOk reply (IsPrintable grammar.now text.now) }
        ensures ok { OnOk result (SaysBy (reply_bytes grammar.now text.now) reply
            (K.written sink.old) (K.written sink.new) self.old self.new) }
        ensures err { OnErr result (GrowsByPrefix (K.written sink.old) (K.written sink.new)
            (self.old ++ bytes_in (reply_bytes grammar.now text.now) reply)) }
        ensures cause { HasCause (K.faults sink.old) (K.faults sink.new)
            (IsErrOf result IoFault.Write) }
        ensures read { IsErrOf result IoFault.Read → ⊥ }
    {
        match reply {
            Ok(Reply::Line(line)) => self.say(sink, Ok(line)),
            Ok(Reply::Tree(tree)) => self.say_tree(alloc, sink, &tree, grammar, text),
            Err(error) => self.say(sink, Err(error)),
        }
    }

    /// Says the line and writes all.
    fn write_out<K: Sink>(
        &mut self,
        sink: &mut K,
        line: Result<String, AllocError>,
    ) -> Result<(), IoFault>
        ensures ok { OnOk result
            (WritesOut line (K.written sink.old) (K.written sink.new) self.old) }
        ensures err { OnErr result
            (GrowsByPrefix (K.written sink.old) (K.written sink.new) (self.old ++ line_in line)) }
        ensures cause { HasCause (K.faults sink.old) (K.faults sink.new)
            (IsErrOf result IoFault.Write) }
        ensures read { IsErrOf result IoFault.Read → ⊥ }
    {
        self.say(sink, line)?;
        self.flush(sink)
    }

    /// Says the last line of a session, writes all, and answers its status or a fault's.
    pub(crate) fn finish<K: Sink>(
        &mut self,
        sink: &mut K,
        line: Result<String, AllocError>,
        wanted: Status,
    ) -> Status
        requires read { wanted ≡ Status.ReadFault → ⊥ }
        requires write { wanted ≡ Status.WriteFault → ⊥ }
        ensures ok { Finishes line (K.written sink.old) (K.written sink.new)
            self.old wanted result }
        ensures cause { HasCause (K.faults sink.old) (K.faults sink.new)
            (result ≡ Status.WriteFault) }
        ensures read { result ≡ Status.ReadFault → ⊥ }
    {
        match self.write_out(sink, line) {
            Ok(()) => wanted,
            Err(fault) => Status::from(fault),
        }
    }
}
