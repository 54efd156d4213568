//! A session with its exact replies, when they are written, and faults in mid-session; and the
//! calls of a session one by one. Rows of scripts and sessions stand in `tests/sessions.py` at the
//! top of the repository.
ghost use Rattle.std.specs.Prelude.{◌≡◌, ◌≤◌, ◌<◌, ◌^◌, IsTrue};
ghost use Rattle.chart_service.specs.Serving.{AreAllowed};
ghost use Rattle.chart_service.specs.Sessions.{version_count};

use cell_sets::ListCell;
use chart_service::{
    AskFault, Opened, Options, Refusal, Session, SessionFault, read_language, serve,
};
use cyk_io::{ByteSink, ByteSource, CleanSink, CleanSource, Sink, SinkFault, Source};
use script_reader::Query;
use spec_script::{Constituent, TokenSpan};
use std::alloc::{AllocError, Global};
use std::marker::Brand;
use std::sync::ledger::{Blank, Ledger};
use std::test::Fail;
use step_count::Steps;

const SCRIPT: &[u8] = b"script 1
grammar 33
Cat. S ::= S S ; One. S ::= \"a\" ;
open 3
a a
has S 0 2
has S 1 1
has T 0 1
has S 0 3
end
";

const SESSION: &[u8] = b"grammar rules 2 categories 1 kinds 1
version 0 tokens 2
yes
no
refused category
refused span 2
end
";

const TREES: &[u8] = b"script 1
grammar 33
Cat. S ::= S S ; One. S ::= \"a\" ;
open 5
a a a
has
tree
tree S 1 2
tree S 0 0
tree T 0 4
tree S 0 4
has
end
";

const TREES_SESSION: &[u8] = b"grammar rules 2 categories 1 kinds 1
version 0 tokens 3
yes
(Cat (One) (Cat (One) (One)))
(One)
none
refused category
refused span 3
yes
end
";

/// Where each part of the script ends, and where the replies up to there end.
const ENDS: [(usize, usize); 7] = [
    (54, 37),
    (65, 56),
    (75, 60),
    (85, 63),
    (95, 80),
    (105, 95),
    (109, 99),
];

fn options() -> Options
    ensures { AreAllowed result }
{
    Options {
        workers: 1,
        readers: 1,
        rounds: 1,
        grain: 8,
        seed: 0,
        tokens: 16,
    }
}

fn run<S: Source, K: Sink, L: Ledger>(
    alloc: Global,
    source: &mut S,
    sink: &mut K,
    blank: Blank,
) -> u8
    requires name { blank.name ≡ L.name }
    requires parts { blank.parts ≡ L.parts }
    requires some { 0 < L.parts }
{
    let mut joins = Steps::<L>::of(blank);
    serve(alloc, &options(), source, sink, &mut joins)
}

/// The status, and the sink behind it, of the script.
fn serve_whole(alloc: Global, script: &[u8]) -> Result<(u8, CleanSink), AllocError> {
    let mut source = CleanSource::new(Vec::from_slice(alloc, script)?);
    let mut sink = CleanSink::new(alloc);
    let status = run::<_, _, Brand>(alloc, &mut source, &mut sink, Blank::new(1));
    Ok((status, sink))
}

/// The same of `SCRIPT`, of which one read and one write fail; 0 stands for none.
fn serve_pieces(
    alloc: Global,
    piece: usize,
    read_fault: u64,
    write_fault: u64,
) -> Result<(u8, ByteSink), AllocError>
    requires { 1 ≤ piece }
{
    let script = Vec::from_slice(alloc, SCRIPT)?;
    let mut source = ByteSource::new(script, piece, Vec::from_slice(alloc, &[read_fault])?);
    let mut sink = ByteSink::new(alloc, piece, Vec::from_slice(alloc, &[write_fault])?);
    let status = run::<_, _, Brand>(alloc, &mut source, &mut sink, Blank::new(1));
    Ok((status, sink))
}

#[test]
fn each_way_to_end_has_its_last_line(rt: HostRuntime) -> Result<(), Fail> {
    let rows = [
        (SCRIPT, 0, SESSION),
        (
            b"script 2\n".as_slice(),
            3,
            b"script refused 0\n".as_slice(),
        ),
        (
            b"script 1\ngrammar 12\nA. S ::= S ;\nend\n".as_slice(),
            2,
            b"grammar refused cyclic S\n".as_slice(),
        ),
        (
            b"script 1\ngrammar 70000\n".as_slice(),
            3,
            b"script refused 23\n".as_slice(),
        ),
        (
            b"script 1\ngrammar 0\n\nend\n".as_slice(),
            0,
            b"grammar rules 0 categories 0 kinds 0\nend\n".as_slice(),
        ),
        (
            b"script 1\ngrammar 0\n\nedit 0 0 0\n\n".as_slice(),
            3,
            b"grammar rules 0 categories 0 kinds 0\nrefused closed\nscript refused 32\n".as_slice(),
        ),
    ];
    for (script, expected, session) in rows {
        let (status, sink) = serve_whole(rt.alloc(), script)?;
        assert_eq!(rt; status, expected, "the session {session:?}");
        assert_eq!(rt; sink.as_bytes(), session);
    }
    Ok(())
}

#[test]
fn tokens_are_told_with_their_bytes(rt: HostRuntime) -> Result<(), Fail> {
    let script = b"script 1\ngrammar 14\nA. S ::= \"a\" ;\nopen 5\na?\\\x00a\ntokens 0 4\nend\n";
    let (status, sink) = serve_whole(rt.alloc(), script.as_slice())?;
    let session = b"grammar rules 1 categories 1 kinds 1
version 0 tokens 5
tokens 4 word:a stray:? stray:\\\\ stray:\\x00
end
";
    assert_eq!(rt; status, 0);
    assert_eq!(rt; sink.as_bytes(), session.as_slice());
    Ok(())
}

#[test]
fn trees_are_told_among_other_replies(rt: HostRuntime) -> Result<(), Fail> {
    let (status, sink) = serve_whole(rt.alloc(), TREES)?;
    assert_eq!(rt; status, 0);
    assert_eq!(rt; sink.as_bytes(), TREES_SESSION);
    Ok(())
}

/// How many bytes reply to the parts that stand in so many bytes of the script.
fn replied_in(read: usize) -> usize {
    let mut replied = 0;
    for (end, replies) in ENDS {
        if end <= read {
            replied = replies;
        }
    }
    replied
}

#[test]
fn each_reply_is_written_before_the_next_read(rt: HostRuntime) -> Result<(), Fail> {
    // Pieces and how many of them the script has. Those of 61 and 64 bytes end behind the line of
    // the text, before its block and within it.
    let pieces = [
        (1, 109),
        (7, 16),
        (40, 3),
        (54, 3),
        (61, 2),
        (64, 2),
        (76, 2),
        (108, 2),
    ];
    for (piece, reads) in pieces {
        for fault in 1..=reads {
            let (status, sink) = serve_pieces(rt.alloc(), piece, fault, 0)?;
            let written = sink.as_bytes();
            let replied = replied_in((fault as usize - 1).saturating_mul(piece));
            assert_eq!(rt; status, 4, "pieces of {piece}, read {fault} fails");
            assert_eq!(rt;
                written.len(),
                replied,
                "pieces of {piece}, read {fault} fails"
            );
            assert!(rt;
                SESSION.starts_with(written),
                "pieces of {piece}, read {fault} fails"
            );
        }
    }
    Ok(())
}

#[test]
fn no_read_is_asked_for_behind_the_end(rt: HostRuntime) -> Result<(), Fail> {
    // The script has 109 bytes: 109 reads of one byte, 3 of at most 40, or a single one.
    for (piece, beyond) in [(1, 110), (40, 4), (4096, 2)] {
        let (status, sink) = serve_pieces(rt.alloc(), piece, beyond, 0)?;
        assert_eq!(rt; status, 0, "pieces of {piece}");
        assert_eq!(rt; sink.as_bytes(), SESSION, "pieces of {piece}");
    }
    Ok(())
}

#[test]
fn a_write_fault_leaves_a_prefix(rt: HostRuntime) -> Result<(), Fail> {
    // The replies have 37, 19, 4, 3, 17, 15 and 4 bytes. The last two go out together, since the
    // last line is read with the end of the one before it.
    let ends = [0, 8, 16, 24, 32, 37, 45, 53, 56, 60, 63, 71, 79, 80, 88, 96];
    for (fault, end) in (1..).zip(ends) {
        let (status, sink) = serve_pieces(rt.alloc(), 8, 0, fault)?;
        assert_eq!(rt; status, 5, "pieces of 8, write {fault} fails");
        assert_eq!(rt;
            sink.as_bytes().len(),
            end,
            "pieces of 8, write {fault} fails"
        );
        assert!(rt;
            SESSION.starts_with(sink.as_bytes()),
            "pieces of 8, write {fault} fails"
        );
    }
    let (status, sink) = serve_pieces(rt.alloc(), 8, 0, 17)?;
    assert_eq!(rt; status, 0);
    assert_eq!(rt; sink.as_bytes(), SESSION);
    Ok(())
}

#[test]
fn a_write_fault_leaves_the_bytes_before_it(rt: HostRuntime) -> Result<(), Fail> {
    for (fault, written) in (1..).zip(0..99) {
        let (status, sink) = serve_pieces(rt.alloc(), 1, 0, fault)?;
        assert_eq!(rt; status, 5, "write {fault} fails");
        assert_eq!(rt; sink.as_bytes().len(), written, "write {fault} fails");
        assert!(rt; SESSION.starts_with(sink.as_bytes()), "write {fault} fails");
    }
    let (status, sink) = serve_pieces(rt.alloc(), 1, 0, 100)?;
    assert_eq!(rt; status, 0);
    assert_eq!(rt; sink.as_bytes(), SESSION);
    Ok(())
}

/// A sink that takes all it is given, for so many writes, and has no memory for the next.
#[derive(Drop)]
struct FullSink {
    bytes: CleanSink,
    writes: u64,
}

impl Sink for FullSink {
    ghost use Rattle.std.specs.Prelude.{Some};

    ghost written = { λ sink. Some sink.bytes };

    ghost faults = { λ _. 0 };

    fn write(&mut self, from: &[u8]) -> Result<usize, SinkFault> {
        if self.writes == 0 {
            return Err(SinkFault::Memory);
        }
        self.writes -= 1;
        self.bytes.write(from)
    }
}

/// The status, and the sink behind it, of the script over a sink with room for so many writes.
fn serve_into_room(
    alloc: Global,
    script: &[u8],
    writes: u64,
) -> Result<(u8, CleanSink), AllocError> {
    let mut source = CleanSource::new(Vec::from_slice(alloc, script)?);
    let mut sink = FullSink {
        bytes: CleanSink::new(alloc),
        writes,
    };
    let status = run::<_, _, Brand>(alloc, &mut source, &mut sink, Blank::new(1));
    Ok((status, sink.bytes))
}

#[test]
fn replies_to_what_one_read_holds_go_out_together(rt: HostRuntime) -> Result<(), Fail> {
    // The reply to the grammar is written before the text is read, and all others at the end.
    for (writes, end) in [(0, 0), (1, 37)] {
        let (status, sink) = serve_into_room(rt.alloc(), SCRIPT, writes)?;
        assert_eq!(rt; status, 6, "room for {writes} writes");
        assert_eq!(rt;
            sink.as_bytes(),
            &SESSION[..end],
            "room for {writes} writes"
        );
    }
    let (status, sink) = serve_into_room(rt.alloc(), SCRIPT, 2)?;
    assert_eq!(rt; status, 0);
    assert_eq!(rt; sink.as_bytes(), SESSION);
    Ok(())
}

#[test]
fn want_of_memory_within_a_tree_leaves_a_prefix(rt: HostRuntime) -> Result<(), Fail> {
    // The session takes fewer than forty writes.
    for writes in 0..40 {
        let (status, sink) = serve_into_room(rt.alloc(), TREES, writes)?;
        let written = sink.as_bytes();
        assert!(rt;
            TREES_SESSION.starts_with(written),
            "room for {writes} writes"
        );
        assert_eq!(rt;
            status == 0,
            written.len() == TREES_SESSION.len(),
            "room for {writes} writes"
        );
    }
    let (status, sink) = serve_into_room(rt.alloc(), TREES, 40)?;
    assert_eq!(rt; status, 0);
    assert_eq!(rt; sink.as_bytes(), TREES_SESSION);
    Ok(())
}

/// A script of so many questions on a category that is none.
fn questions(alloc: Global, count: usize) -> Result<Vec<u8>, AllocError> {
    let front = b"script 1\ngrammar 14\nA. S ::= \"a\" ;\nopen 1\na\n".as_slice();
    let mut script = Vec::from_slice(alloc, front)?;
    for _ in 0..count {
        script.extend_from_slice(b"has T\n".as_slice())?;
    }
    script.extend_from_slice(b"end\n".as_slice())?;
    Ok(script)
}

#[test]
fn more_replies_than_are_gathered_are_written_in_order(rt: HostRuntime) -> Result<(), Fail> {
    let script = questions(rt.alloc(), 3000)?;
    let (status, sink) = serve_whole(rt.alloc(), script.as_slice())?;
    let front = b"grammar rules 1 categories 1 kinds 1\nversion 0 tokens 1\n".as_slice();
    let mut session = Vec::from_slice(rt.alloc(), front)?;
    for _ in 0..3000 {
        session.extend_from_slice(b"refused category\n".as_slice())?;
    }
    session.extend_from_slice(b"end\n".as_slice())?;
    assert_eq!(rt; status, 0);
    assert!(rt; sink.as_bytes() == session.as_slice());
    Ok(())
}

/// A session under the grammar of `SCRIPT` in which no text was opened yet.
fn closed_session(alloc: Global) -> Result<Session<ListCell>, Fail> {
    let grammar = b"Cat. S ::= S S ; One. S ::= \"a\" ;".as_slice();
    match read_language::<ListCell>(alloc, grammar) {
        Ok(language) => Ok(Session::new(language, options())),
        Err(_) => Err("a grammar that is accepted".into()),
    }
}

/// Whether a further version has a number.
fn has_few(session: &Session<ListCell>) -> bool
    ensures { IsTrue result → version_count session.now ≤ 2 ^ 63 }
{
    match session.current() {
        Some(version) => version.number < 1 << 63,
        None => true,
    }
}

/// What opening a text of these bytes answers, by the number and the tokens of its version.
fn open(
    alloc: Global,
    session: &mut Session<ListCell>,
    bytes: &[u8],
) -> Result<Opened, SessionFault> {
    session.open(alloc, bytes.len() as u64, Some(bytes))
}

/// What the edit answers.
fn edit(
    alloc: Global,
    session: &mut Session<ListCell>,
    at: u64,
    deleted: u64,
    bytes: &[u8],
) -> Result<Opened, SessionFault> {
    if !has_few(session) {
        return Err(SessionFault::Memory);
    }
    session.edit(alloc, at, deleted, bytes.len() as u64, Some(bytes))
}

/// The bytes of the current text.
fn text_of(session: &Session<ListCell>) -> &[u8] {
    match session.current() {
        Some(version) => version.text.bytes(),
        None => b"no text".as_slice(),
    }
}

#[test]
fn a_text_is_opened_and_edited_or_stays(rt: HostRuntime) -> Result<(), Fail> {
    let alloc = rt.alloc();
    let mut session = closed_session(alloc)?;
    let closed = Err(SessionFault::Refused(Refusal::Closed));
    let no_utf8 = Err(SessionFault::Refused(Refusal::Utf8 { at: 1 }));
    assert_eq!(rt; edit(alloc, &mut session, 0, 0, b"a"), closed);
    assert_eq!(rt; open(alloc, &mut session, b"a\xFF"), no_utf8);
    assert_eq!(rt; text_of(&session), b"no text".as_slice());
    let first = Ok(Opened {
        number: 0,
        tokens: 2,
    });
    assert_eq!(rt; open(alloc, &mut session, b"a a"), first);
    let open_already = Err(SessionFault::Refused(Refusal::Open));
    assert_eq!(rt; open(alloc, &mut session, b"a"), open_already);
    let second = Ok(Opened {
        number: 1,
        tokens: 3,
    });
    assert_eq!(rt; edit(alloc, &mut session, 1, 1, b" ? "), second);
    let outside = Err(SessionFault::Refused(Refusal::Range { len: 5 }));
    assert_eq!(rt; edit(alloc, &mut session, 4, 2, b""), outside);
    assert_eq!(rt; edit(alloc, &mut session, 1, 0, b"\xFF"), no_utf8);
    assert_eq!(rt; text_of(&session), b"a ? a".as_slice());
    Ok(())
}

#[test]
fn a_question_has_one_line(rt: HostRuntime) -> Result<(), Fail> {
    let alloc = rt.alloc();
    let mut session = closed_session(alloc)?;
    let mut sink = CleanSink::new(alloc);
    let whole = Query::Has(Constituent::EntryWhole);
    assert_eq!(rt; session.ask(alloc, &whole, &mut sink), Ok(()));
    assert!(rt; open(alloc, &mut session, b"a a").is_ok());
    assert_eq!(rt; session.ask(alloc, &whole, &mut sink), Ok(()));
    let tree = Query::Tree(Constituent::EntryWhole);
    assert_eq!(rt; session.ask(alloc, &tree, &mut sink), Ok(()));
    let span = TokenSpan::Span { first: 1, end: 3 };
    assert_eq!(rt; session.ask(alloc, &Query::Tokens(span), &mut sink), Ok(()));
    let lines = b"refused closed\nyes\n(Cat (One) (One))\nrefused span 2\n".as_slice();
    assert_eq!(rt; sink.as_bytes(), lines);
    Ok(())
}

#[test]
fn an_answer_that_cannot_be_written_is_cut(rt: HostRuntime) -> Result<(), Fail> {
    let alloc = rt.alloc();
    let session = closed_session(alloc)?;
    let mut sink = ByteSink::new(alloc, 7, Vec::from_slice(alloc, &[2])?);
    let whole = Query::Has(Constituent::EntryWhole);
    assert_eq!(rt; session.ask(alloc, &whole, &mut sink), Err(AskFault::Write));
    assert_eq!(rt; sink.as_bytes(), b"refused".as_slice());
    let mut full = FullSink {
        bytes: CleanSink::new(alloc),
        writes: 0,
    };
    assert_eq!(rt;
        session.ask(alloc, &whole, &mut full),
        Err(AskFault::Memory)
    );
    assert_eq!(rt; full.bytes.as_bytes(), b"".as_slice());
    Ok(())
}
