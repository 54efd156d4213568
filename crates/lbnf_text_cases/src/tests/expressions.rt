//! What token expressions give, and where they cannot go on, with answers by hand.
use super::files::{answer_to, tells};
use super::forms::shown;
use spec_lexing::{Class, Expr};
use std::alloc::{AllocError, Global};
use std::test::*;

fn head_of(expr: &Expr) -> &str {
    match expr {
        Expr::Eps => " eps",
        Expr::Class(Class::Digit) => " digit",
        Expr::Class(Class::Letter) => " letter",
        Expr::Class(Class::Upper) => " upper",
        Expr::Class(Class::Lower) => " lower",
        Expr::Class(Class::AnyChar) => " char",
        Expr::Scalar(_) => " '",
        Expr::AnyOf(_) => " any ",
        Expr::Word(_) => " word ",
        Expr::Seq(_) => " seq",
        Expr::Alt(_) => " alt",
        Expr::Minus(_, _) => " -",
        Expr::Star(_) => " *",
        Expr::Plus(_) => " +",
        Expr::Opt(_) => " ?",
    }
}

/// Shows what an expression has besides its parts: its scalar, its name or how many parts it has.
fn show_own(alloc: Global, out: &mut Vec<u8>, expr: &Expr) -> Result<(), AllocError> {
    out.extend_from_slice(head_of(expr).as_bytes())?;
    match expr {
        Expr::Scalar(scalar) => {
            let own = format!(in alloc; "{scalar}")?;
            out.extend_from_slice(own.as_bytes())
        }
        Expr::AnyOf(name) => out.extend_from_slice(name.as_slice()),
        Expr::Word(name) => out.extend_from_slice(name.as_slice()),
        Expr::Seq(parts) => {
            let own = format!(in alloc; "{}", parts.len())?;
            out.extend_from_slice(own.as_bytes())
        }
        Expr::Alt(parts) => {
            let own = format!(in alloc; "{}", parts.len())?;
            out.extend_from_slice(own.as_bytes())
        }
        _ => Ok(()),
    }
}

/// Adds the parts of an expression to those that are to be shown, the first of them last.
fn add_parts<'a>(due: &mut Vec<&'a Expr>, expr: &'a Expr) -> Result<(), AllocError> {
    match expr {
        Expr::Seq(parts) => add_all(due, parts.as_slice())?,
        Expr::Alt(parts) => add_all(due, parts.as_slice())?,
        Expr::Minus(left, right) => {
            due.push(right.get())?;
            due.push(left.get())?;
        }
        Expr::Star(part) => due.push(part.get())?,
        Expr::Plus(part) => due.push(part.get())?,
        Expr::Opt(part) => due.push(part.get())?,
        _ => {}
    }
    Ok(())
}

fn add_all<'a>(due: &mut Vec<&'a Expr>, parts: &'a [Expr]) -> Result<(), AllocError> {
    for part in parts.iter().rev() {
        due.push(part)?;
    }
    Ok(())
}

/// Shows an expression of at most 1,000 parts with each form before its parts.
pub fn show_expr(alloc: Global, out: &mut Vec<u8>, expr: &Expr) -> Result<(), AllocError> {
    let mut due = Vec::new(alloc);
    due.push(expr)?;
    for _turn in 0..1_000 {
        let Some(expr) = due.pop() else {
            return Ok(());
        };
        show_own(alloc, out, expr)?;
        add_parts(&mut due, expr)?;
    }
    Ok(())
}

/// Expressions, and what they are with each form before its parts.
const EXPRESSIONS: &[(&str, &str)] = &[
    ("'a'", " 'a"),
    ("'\\''", " ''"),
    ("'\u{e9}'", " '\u{e9}"),
    ("[\"abc\"]", " any abc"),
    ("[\"\"]", " any "),
    ("[\"a b\"]", " any a b"),
    ("{\"a b\"}", " word a b"),
    ("{\"\"}", " word "),
    (
        "digit letter upper lower char eps",
        " seq6 digit letter upper lower char eps",
    ),
    ("('a')", " 'a"),
    ("(('a' 'b'))", " seq2 'a 'b"),
    ("'a' ('b' 'c') 'd'", " seq3 'a seq2 'b 'c 'd"),
    ("'a' | ('b' | 'c') | 'd'", " alt3 'a alt2 'b 'c 'd"),
    (
        "'a' 'b' | 'c' - 'd' | 'e'*",
        " alt3 seq2 'a 'b - 'c 'd * 'e",
    ),
    ("'a' 'b'* 'c'", " seq3 'a * 'b 'c"),
    ("('a' 'b')*", " * seq2 'a 'b"),
    ("'a'*+?", " ? + * 'a"),
    ("char - 'a' - 'b'", " - - char 'a 'b"),
    ("char - ('a' - 'b')", " - char - 'a 'b"),
    ("char - ('a' | 'b')", " - char alt2 'a 'b"),
    ("(char - 'a')*", " * - char 'a"),
    ("char - 'a' | char - 'b'", " alt2 - char 'a - char 'b"),
    ("('a')('b')|eps", " alt2 seq2 'a 'b eps"),
    (
        "[\"+-\"]? digit+ ({\"e\"} digit+)?",
        " seq3 ? any +- + digit ? seq2 word e + digit",
    ),
];

#[test]
fn each_level_of_an_expression_binds_tighter(rt: HostRuntime) -> Result<(), Fail> {
    for (text, want) in EXPRESSIONS {
        let file = format!(in rt.alloc(); "token T {text} ;")?;
        let want = format!(in rt.alloc(); "token T{want}|")?;
        let answer = shown(rt.alloc(), file.as_str())?;
        assert_eq!(rt; answer.as_slice(), want.as_bytes(), "at {text:?}");
    }
    Ok(())
}

/// Files that stop at a kind of token or at a comment, and some that do not.
const STOPS: &[(&str, &str)] = &[
    ("token", "syntax 5"),
    ("token ;", "syntax 6"),
    ("token T", "syntax 7"),
    ("token T ;", "syntax 8"),
    ("token t 'a' ;", "syntax 6"),
    ("token digit ;", "syntax 6"),
    ("token [T] 'a' ;", "syntax 6"),
    ("token token T 'a' ;", "syntax 6"),
    ("token T \"a\" ;", "syntax 8"),
    ("token T 1 ;", "syntax 8"),
    ("token T foo ;", "syntax 8"),
    ("token T Digit ;", "syntax 8"),
    ("token T digit digits ;", "syntax 14"),
    ("token T () ;", "syntax 9"),
    ("token T ('a' ;", "syntax 13"),
    ("token T ('a'", "syntax 12"),
    ("token T 'a') ;", "syntax 11"),
    ("token T * ;", "syntax 8"),
    ("token T (*) ;", "syntax 9"),
    ("token T | 'a' ;", "syntax 8"),
    ("token T 'a' | ;", "syntax 14"),
    ("token T 'a' || 'b' ;", "syntax 13"),
    ("token T - 'a' ;", "syntax 8"),
    ("token T 'a' - ;", "syntax 14"),
    ("token T 'a' - * ;", "syntax 14"),
    ("token T 'a' . ;", "syntax 12"),
    ("token T 'a', 'b' ;", "syntax 11"),
    ("token T [ ;", "syntax 10"),
    ("token T [] ;", "syntax 9"),
    ("token T ['a'] ;", "syntax 9"),
    ("token T [\"a\" \"b\"] ;", "syntax 13"),
    ("token T [\"a\"} ;", "syntax 12"),
    ("token T [\"a\" ;", "syntax 13"),
    ("token T {\"a\"] ;", "syntax 12"),
    ("token T {} ;", "syntax 9"),
    ("token T ] ;", "syntax 8"),
    ("token T } ;", "syntax 8"),
    ("token T [[\"a\"]] ;", "syntax 9"),
    ("position T 'a' ;", "syntax 9"),
    ("position ;", "syntax 9"),
    ("position token ;", "syntax 15"),
    ("position position token T 'a' ;", "syntax 9"),
    ("position token T 'a' ;", "defs 1"),
    ("token. S ::= ;", "syntax 5"),
    ("comment ;", "syntax 8"),
    ("comment", "syntax 7"),
    ("comment \"\" ;", "syntax 8"),
    ("comment \"a\" \"\" ;", "syntax 12"),
    ("comment \"a\" \"b\" \"c\" ;", "syntax 16"),
    ("comment \"a\" , \"b\" ;", "syntax 12"),
    ("comment 'a' ;", "syntax 8"),
    ("comment \" \" \" \" ;", "defs 1"),
    ("comment. S ::= ;", "syntax 7"),
    ("token T layout ;", "syntax 8"),
    (
        "token Token char ; comment \"#\" ; position token T eps",
        "defs 3",
    ),
];

#[test]
fn expressions_and_comments_that_cannot_go_on(rt: HostRuntime) -> Result<(), Fail> {
    tells(&rt, rt.alloc(), STOPS)
}

/// The file `token T`, an atom, and so often before it and behind it.
fn around(
    alloc: Global,
    before: &str,
    atom: &str,
    behind: &str,
    count: usize,
) -> Result<Vec<u8>, AllocError> {
    let mut text = Vec::new(alloc);
    text.extend_from_slice(b"token T ".as_slice())?;
    for _ in 0..count {
        text.extend_from_slice(before.as_bytes())?;
    }
    text.extend_from_slice(atom.as_bytes())?;
    for _ in 0..count {
        text.extend_from_slice(behind.as_bytes())?;
    }
    Ok(text)
}

/// What stands before an atom, the atom, what stands behind it, and how often both do; and what is
/// told of such a file.
type Around = (
    &'static str,
    &'static str,
    &'static str,
    usize,
    &'static str,
);

const LIMITS: &[Around] = &[
    ("(", "'a'", ")", 64, "defs 1"),
    ("(", "'a'", ")", 65, "syntax 72"),
    ("('a')", "'a'", "", 66, "defs 1"),
    ("(", "[\"a\"]", ")", 64, "defs 1"),
    ("", "'a'", "*", 8, "defs 1"),
    ("", "'a'", "*", 9, "syntax 19"),
    ("", "'a'", "?+", 4, "defs 1"),
    ("", "'a'", "?+", 5, "syntax 19"),
    ("", "('a'********)", "+", 8, "defs 1"),
    ("", "char", "-'a'", 8, "defs 1"),
    ("", "char", "-'a'", 9, "syntax 44"),
    ("", "'b'", "|char-'a'", 9, "defs 1"),
    ("", "(char-'a'-'b')", "-'c'", 8, "defs 1"),
    ("(", "char-'a'", ")-'b'", 8, "defs 1"),
];

#[test]
fn expressions_at_their_limits(rt: HostRuntime) -> Result<(), Fail> {
    for (before, atom, behind, count, want) in LIMITS {
        let text = around(rt.alloc(), before, atom, behind, *count)?;
        let answer = answer_to(rt.alloc(), text.as_slice())?;
        assert_eq!(rt;
            answer.as_str(),
            *want,
            "{count} of {before:?} and {behind:?}"
        );
    }
    Ok(())
}
