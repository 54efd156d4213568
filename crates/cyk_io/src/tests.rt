//! Each call succeeds at concrete types, and reads and writes that fail in mid-stream leave what
//! they should.
ghost use Rattle.std.specs.Prelude.{◌≤◌};

use crate::{
    Ahead, ByteSink, ByteSource, CleanSink, CleanSource, IoFault, Line, ReadBlock, ReadLine,
    StdSink, StdSource, read_exact_n, read_line, write_all_counted,
};
use std::alloc::{AllocError, Global};
use std::collections::VecDeque;
use std::test::Fail;

const LETTERS: &[u8] = b"abcdefghij";

fn text_of(alloc: Global, len: usize, end: &[u8]) -> Result<Vec<u8>, AllocError> {
    let mut text = vec![in alloc; b'a'; len]?;
    text.extend_from_slice(end)?;
    Ok(text)
}

fn letters_in_pieces(alloc: Global, piece: usize, fail_at: &[u64]) -> Result<ByteSource, AllocError>
    requires { 1 ≤ piece }
{
    Ok(ByteSource::new(
        Vec::from_slice(alloc, LETTERS)?,
        piece,
        Vec::from_slice(alloc, fail_at)?,
    ))
}

#[test]
fn a_line_has_at_most_256_bytes(rt: HostRuntime) -> Result<(), Fail> {
    let cases = [
        (0, b"\nab".as_slice(), ReadLine::Line, 0, 1),
        (256, b"\nab".as_slice(), ReadLine::Line, 256, 257),
        (257, b"\nab".as_slice(), ReadLine::LongLine(0), 256, 257),
        (257, b"".as_slice(), ReadLine::LongLine(0), 256, 257),
        (256, b"".as_slice(), ReadLine::Ended(256), 256, 256),
        (0, b"".as_slice(), ReadLine::Ended(0), 0, 0),
    ];
    for (len, end, found, line_len, offset) in cases {
        for piece in [1, 40, 4096] {
            let fail_at = Vec::new(rt.alloc());
            let mut source = ByteSource::new(text_of(rt.alloc(), len, end)?, piece, fail_at);
            let mut ahead = Ahead::new();
            let mut line: Line<256> = Line::new();
            let answer = read_line(&mut source, &mut ahead, &mut line);
            assert_eq!(rt; answer, Ok(found), "{len} bytes, pieces of {piece}");
            assert_eq!(rt;
                line.as_bytes().len(),
                line_len,
                "{len} bytes, pieces of {piece}"
            );
            assert_eq!(rt; ahead.offset(), offset, "{len} bytes, pieces of {piece}");
        }
    }
    Ok(())
}

#[test]
fn a_line_goes_on_behind_a_fault(rt: HostRuntime) -> Result<(), Fail> {
    let alloc = rt.alloc();
    let text = Vec::from_slice(alloc, b"abcd\nxyz\n".as_slice())?;
    let mut source = ByteSource::new(text, 3, Vec::from_slice(alloc, &[2])?);
    let mut ahead = Ahead::new();
    let mut line: Line<256> = Line::new();
    let answer = read_line(&mut source, &mut ahead, &mut line);
    assert_eq!(rt; answer, Err(IoFault::Read));
    assert_eq!(rt; line.as_bytes(), b"abc".as_slice());
    let answer = read_line(&mut source, &mut ahead, &mut line);
    assert_eq!(rt; answer, Ok(ReadLine::Line));
    assert_eq!(rt; line.as_bytes(), b"d".as_slice());
    assert_eq!(rt; ahead.offset(), 5);
    Ok(())
}

#[test]
fn a_block_is_kept_or_passed_over(rt: HostRuntime) -> Result<(), Fail> {
    let cases = [
        (4, 4, Ok(ReadBlock::Kept), b"abcd".as_slice(), 4),
        (4, 3, Ok(ReadBlock::Skipped), b"".as_slice(), 4),
        (10, 10, Ok(ReadBlock::Kept), LETTERS, 10),
        (11, 11, Ok(ReadBlock::Ended(10)), LETTERS, 10),
        (11, 4, Ok(ReadBlock::Ended(10)), b"".as_slice(), 10),
        (0, 0, Ok(ReadBlock::Kept), b"".as_slice(), 0),
    ];
    for (count, keep, answer, kept, offset) in cases {
        let mut source = letters_in_pieces(rt.alloc(), 3, &[])?;
        let mut ahead = Ahead::new();
        let mut into = Vec::new(rt.alloc());
        let found = read_exact_n(&mut source, &mut ahead, count, keep, &mut into);
        assert_eq!(rt; found, answer, "{count} bytes");
        assert_eq!(rt; into.as_slice(), kept, "{count} bytes");
        assert_eq!(rt; ahead.offset(), offset, "{count} bytes");
    }
    Ok(())
}

#[test]
fn a_fault_in_a_block_leaves_the_rest(rt: HostRuntime) -> Result<(), Fail> {
    let mut source = letters_in_pieces(rt.alloc(), 3, &[2])?;
    let mut ahead = Ahead::new();
    let mut into = Vec::new(rt.alloc());
    let found = read_exact_n(&mut source, &mut ahead, 4, 4, &mut into);
    assert_eq!(rt; found, Err(IoFault::Read));
    let found = read_exact_n(&mut source, &mut ahead, 4, 4, &mut into);
    assert_eq!(rt; found, Ok(ReadBlock::Kept));
    assert_eq!(rt; into.as_slice(), b"defg".as_slice());
    Ok(())
}

#[test]
fn a_write_fault_leaves_the_pieces_before_it(rt: HostRuntime) -> Result<(), Fail> {
    let cases = [
        (1, 0, Ok(()), LETTERS),
        (1, 1, Err(IoFault::Write), b"".as_slice()),
        (1, 3, Err(IoFault::Write), b"ab".as_slice()),
        (8, 2, Err(IoFault::Write), b"abcdefgh".as_slice()),
        (8, 3, Ok(()), LETTERS),
    ];
    for (piece, fail_at, answer, written) in cases {
        let mut sink = ByteSink::new(rt.alloc(), piece, Vec::from_slice(rt.alloc(), &[fail_at])?);
        let found = write_all_counted(&mut sink, LETTERS);
        assert_eq!(rt; found, answer, "fault {fail_at}, pieces of {piece}");
        assert_eq!(rt;
            sink.as_bytes(),
            written,
            "fault {fail_at}, pieces of {piece}"
        );
    }
    Ok(())
}

#[test]
fn clean_memory_gives_and_takes_all(rt: HostRuntime) -> Result<(), Fail> {
    let mut source = CleanSource::new(Vec::from_slice(rt.alloc(), b"one\ntwo".as_slice())?);
    let mut sink = CleanSink::new(rt.alloc());
    let mut line: Line<8> = Line::new();
    let answer = read_line(&mut source, &mut Ahead::new(), &mut line);
    assert_eq!(rt; answer, Ok(ReadLine::Line));
    let answer = write_all_counted(&mut sink, line.as_bytes());
    assert_eq!(rt; answer, Ok(()));
    assert_eq!(rt; sink.as_bytes(), b"one".as_slice());
    Ok(())
}

#[test]
fn readers_and_writers_of_std_are_used(rt: HostRuntime) -> Result<(), Fail> {
    let mut source = StdSource::new(b"one\ntwo".as_slice());
    let mut written = VecDeque::new(rt.alloc());
    let mut sink = StdSink::new(&mut written);
    let mut line: Line<8> = Line::new();
    let answer = read_line(&mut source, &mut Ahead::new(), &mut line);
    assert_eq!(rt; answer, Ok(ReadLine::Line));
    let answer = write_all_counted(&mut sink, line.as_bytes());
    assert_eq!(rt; answer, Ok(()));
    assert_eq!(rt; &*written.make_contiguous(), b"one".as_slice());
    Ok(())
}
