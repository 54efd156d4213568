//! Numbers against published ones, and texts and edits that were worked out by another program.

use crate::{
    Edit, Span, drawn, edit_of, grammar_file, program_name, span_of, statement_behind,
    statement_count, statement_name, text_of,
};
use std::alloc::AllocError;
use std::test::Fail;

#[test]
fn numbers_are_the_published_ones(rt: HostRuntime) -> Result<(), Fail> {
    let rows: [(u64, u64, u64); 8] = [
        (1234567, 0, 6457827717110365317),
        (1234567, 1, 3203168211198807973),
        (1234567, 2, 9817491932198370423),
        (1234567, 3, 4593380528125082431),
        (1234567, 4, 16408922859458223821),
        (0, 0, 16294208416658607535),
        (0, 1, 7960286522194355700),
        (0, 2, 487617019471545679),
    ];
    for (seed, number, want) in rows {
        assert_eq!(rt; drawn(seed, number), want, "at {seed} {number}");
    }
    Ok(())
}

#[test]
fn texts_are_those_of_their_seeds(rt: HostRuntime) -> Result<(), Fail> {
    let rows: [(u64, u32, &[u8]); 4] = [
        (0, 4, b"vj=(0-4);\nvr=(0*0);\nvl=(0-6);\nvr=(1*7);\n"),
        (1, 3, b"vt=(9+5);\nvf=(8+3);\nvy=(0+0);\n"),
        (4294967295, 2, b"vc=(0-2);\nve=(6*2);\n"),
        (7, 0, b""),
    ];
    for (seed, statements, want) in rows {
        let text = text_of(rt.alloc(), seed, statements)?;
        assert_eq!(rt; text.as_slice(), want, "at {seed}");
    }
    Ok(())
}

#[test]
fn edits_put_a_semicolon_and_then_a_plus(rt: HostRuntime) -> Result<(), Fail> {
    let rows: [(u64, u32, u32, u32, u8); 9] = [
        (0, 20, 0, 12, b';'),
        (0, 20, 1, 12, b'+'),
        (0, 20, 2, 16, b';'),
        (0, 20, 4, 0, b';'),
        (0, 20, 99, 4, b'+'),
        (7, 4, 5, 1, b'+'),
        (4294967295, 2, 98, 1, b';'),
        (0, 2048, 4, 1899, b';'),
        (0, 2048, 99, 580, b'+'),
    ];
    for (seed, statements, number, statement, byte) in rows {
        let want = Edit {
            statement,
            at: 10 * statement + 5,
            byte,
        };
        assert_eq!(rt;
            edit_of(seed, statements, number),
            want,
            "at {seed} {number}"
        );
    }
    Ok(())
}

#[test]
fn statements_have_eight_tokens_and_the_first_is_behind_the_last(rt: HostRuntime) {
    assert_eq!(rt; statement_count(160), 20);
    assert_eq!(rt; statement_count(33), 4);
    assert_eq!(rt;
        span_of(12),
        Span {
            first: 96,
            end: 103
        }
    );
    assert_eq!(rt; statement_behind(12, 20), 13);
    assert_eq!(rt; statement_behind(19, 20), 0);
}

#[test]
fn the_grammar_has_a_program_of_statements(rt: HostRuntime) {
    assert_eq!(rt; grammar_file().len(), 201);
    assert!(rt; grammar_file().starts_with(b"Prog. Prog ::= [Stm] ;\nterminator Stm \";\" ;\n"));
    assert_eq!(rt; program_name(), b"Prog".as_slice());
    assert_eq!(rt; statement_name(), b"Stm".as_slice());
}
