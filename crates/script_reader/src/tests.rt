//! Parts are read where there is memory, and a break has its exact place.

use crate::{Block, Command, Query, Stop, read_command, read_grammar, read_head, read_header};
use cyk_io::{Ahead, CleanSource, Line};
use spec_script::Constituent;
use spec_text::MAX_LINE;
use std::alloc::Global;
use std::test::Fail;

const GRAMMAR: &[u8] = b"script 1\ngrammar 3\nabc\n";

/// Reads a script of at most 20 commands through its line `end`, or to where it stops.
fn read_all(alloc: Global, source: &mut CleanSource) -> Result<(), Stop> {
    let mut ahead = Ahead::new();
    let mut line: Line<MAX_LINE> = Line::new();
    read_header(source, &mut ahead, &mut line)?;
    read_grammar(alloc, source, &mut ahead, &mut line)?;
    for _ in 0..20 {
        if ahead.offset() >= 1 << 50 {
            break;
        }
        let head = read_head(source, &mut ahead, &mut line)?;
        if let Command::End = read_command(alloc, source, &mut ahead, head)? {
            return Ok(());
        }
    }
    Err(Stop::Breaks(0))
}

#[test]
fn a_break_has_its_exact_place(rt: HostRuntime) -> Result<(), Fail> {
    let cases = [
        (b"open 2\nab\nhas\nhas E 0 2\nend\n".as_slice(), Ok(())),
        (
            b"has\nedit 0 1 2\nab\nopen 1\n\xff\nend\n".as_slice(),
            Ok(()),
        ),
        (b"end\n".as_slice(), Ok(())),
        (b"open 2\nab\n".as_slice(), Err(Stop::Breaks(33))),
        (b"open 02\nab\n".as_slice(), Err(Stop::Breaks(23))),
        (b"open 2\nabc\n".as_slice(), Err(Stop::Breaks(32))),
        (b"open 2\nab".as_slice(), Err(Stop::Breaks(32))),
        (b"edit 0 0 2\na".as_slice(), Err(Stop::Breaks(35))),
        (b"edit 0 2\nab\n".as_slice(), Err(Stop::Breaks(23))),
        (b"edit 0 0 2 \nab\n".as_slice(), Err(Stop::Breaks(23))),
        (b"edit 1000000000 0 0\n\n".as_slice(), Err(Stop::Breaks(23))),
        (b"edit 999999999 999999999 0\n\nend\n".as_slice(), Ok(())),
        (b"open 2\nab\nhas E 0\n".as_slice(), Err(Stop::Breaks(33))),
        (b"open 2\nab\nhas E\nend".as_slice(), Err(Stop::Breaks(42))),
    ];
    for (commands, wanted) in cases {
        let mut script = Vec::from_slice(rt.alloc(), GRAMMAR)?;
        script.extend_from_slice(commands)?;
        let mut source = CleanSource::new(script);
        let answer = read_all(rt.alloc(), &mut source);
        let commands = str::from_utf8(commands).unwrap_or("no text");
        assert_eq!(rt; answer, wanted, "{commands}");
    }
    Ok(())
}
