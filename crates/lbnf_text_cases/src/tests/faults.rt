//! Grammar files that cannot be read, by sorts of fault, and near ones that can, with answers by
//! hand.
use super::files::{answer_to, tells};
use std::test::*;

/// Files with strings and characters.
const LITERALS: &[(&str, &str)] = &[
    ("S. S ::= \"a", "syntax 9"),
    ("S. S ::= \"", "syntax 9"),
    ("S. S ::= \"a\n\" ;", "syntax 9"),
    ("S. S ::= \"a\\", "syntax 9"),
    ("S. S ::= \"a\\\" ;", "syntax 9"),
    ("S. S ::= \"a\\x\" ;", "syntax 9"),
    ("S. S ::= \"\\0\" ;", "syntax 9"),
    ("S. S ::= \"\\r\" ;", "syntax 9"),
    ("S. S ::= \"\\\n\" ;", "syntax 9"),
    ("S. S ::= \"\\\u{e9}\" ;", "syntax 9"),
    ("S. S ::= \"a\" \"b ;", "syntax 13"),
    ("terminator S \"; ;", "syntax 13"),
    ("S. S ::= '''", "syntax 9"),
    ("S. S ::= '' ;", "syntax 9"),
    ("S. S ::= 'ab' ;", "syntax 9"),
    ("S. S ::= 'a", "syntax 9"),
    ("S. S ::= '", "syntax 9"),
    ("S. S ::= '\n' ;", "syntax 9"),
    ("S. S ::= '\\x' ;", "syntax 9"),
    ("S. S ::= '\\' ;", "syntax 9"),
    ("'''", "syntax 0"),
    ("S. S ::= 'a' ;", "syntax 9"),
    ("S. S ::= '\\'' ;", "syntax 9"),
    ("S. S ::= '\u{e9}' ;", "syntax 9"),
    ("'a' ;", "syntax 0"),
    ("S 'a' ;", "syntax 2"),
    ("S. S ::= \"\\\"\\'\\\\\\n\\t\" ;", "defs 1"),
    ("S. S ::= \"'\" ;", "defs 1"),
    ("S. S ::= \"\" ;", "defs 1"),
    ("S. S ::= \"\u{e9}\u{20ac}\u{1f600}\" ;", "defs 1"),
    ("S. S ::= \"\t\r\x0b\x0c\" ;", "defs 1"),
    ("S. S ::= \"\x01\" ;", "defs 1"),
];

#[test]
fn literals_without_their_end_or_with_a_wrong_part(rt: HostRuntime) -> Result<(), Fail> {
    tells(&rt, rt.alloc(), LITERALS)
}

/// Files with numbers.
const NUMBERS: &[(&str, &str)] = &[
    ("coercions E 9999 ;", "defs 1"),
    ("coercions E 10000 ;", "syntax 12"),
    ("coercions E 0000 ;", "defs 1"),
    ("coercions E 00000 ;", "syntax 12"),
    ("coercions E 02 ;", "defs 1"),
    ("coercions E 1a ;", "syntax 13"),
    ("coercions E 1A ;", "syntax 13"),
    ("coercions E 12\"w\" ;", "syntax 14"),
    ("coercions E 1 2 ;", "syntax 14"),
    ("coercions E 3, ;", "syntax 13"),
    ("coercions E 1_ ;", "syntax 13"),
    ("12 ;", "syntax 0"),
    ("12345 ;", "syntax 0"),
    ("S 1 ;", "syntax 2"),
    ("S. 1 ::= ;", "syntax 3"),
    ("S. S ::= A 1 ;", "syntax 11"),
    ("coercions E -1 ;", "syntax 12"),
    ("coercions E 1.5 ;", "syntax 13"),
    ("S. S ::= 1A ;", "syntax 9"),
];

#[test]
fn numbers_of_more_than_four_digits_and_out_of_place(rt: HostRuntime) -> Result<(), Fail> {
    tells(&rt, rt.alloc(), NUMBERS)
}

/// Files with comments and white bytes.
const COMMENTS: &[(&str, &str)] = &[
    ("{-}", "syntax 0"),
    ("{--}", "defs 0"),
    ("{---}", "defs 0"),
    ("{-", "syntax 0"),
    ("{- a", "syntax 0"),
    ("{- a -", "syntax 0"),
    ("S. S ::= \"a\" {- x", "syntax 13"),
    ("S. S ::= \"a\" ; {-", "syntax 15"),
    ("S. S ::= A{-} ;", "syntax 10"),
    ("{- a {- b -}", "defs 0"),
    ("{- a {- b -} -} ;", "syntax 13"),
    ("{- a {- b -} } ;", "syntax 13"),
    ("{-\n-}", "defs 0"),
    ("{- } - -}S. S ::= ;", "defs 1"),
    ("{- -- -} S. S ::= ;", "defs 1"),
    ("{- \" -} S. S ::= ;", "defs 1"),
    ("--", "defs 0"),
    ("-- ;", "defs 0"),
    ("---", "defs 0"),
    ("-- {-\nS. S ::= ;", "defs 1"),
    ("-- a\nS. S ::= ;", "defs 1"),
    ("S. S ::= -- \"b ;\n\"a\" ;", "defs 1"),
    ("S. S ::= A-- a", "defs 1"),
    ("S{--}.{- x -}S--y\n::=A", "defs 1"),
    ("S. S ::= \"--\" \"{-\" ;", "defs 1"),
    ("S. S ::= A - B ;", "syntax 11"),
    ("S. S ::= A -", "syntax 11"),
    ("- -", "syntax 0"),
    ("S. S ::= A { B", "syntax 11"),
    ("S. S ::= A {", "syntax 11"),
    ("S.\rS ::=\r\"a\"\r;\r", "defs 1"),
    ("-- a\rb", "defs 0"),
    ("-- a\r\n)", "syntax 6"),
    ("\t S\x0b.\x0cS\r\n::=\t;", "defs 1"),
    ("", "defs 0"),
    (" \t\n\r\x0b\x0c", "defs 0"),
    (";;\n;", "defs 0"),
];

#[test]
fn comments_and_white_bytes(rt: HostRuntime) -> Result<(), Fail> {
    tells(&rt, rt.alloc(), COMMENTS)
}

/// Files with scalars that begin no token.
const SCALARS: &[(&str, &str)] = &[
    ("\u{feff}S. S ::= ;", "syntax 0"),
    ("\x00", "syntax 0"),
    ("S. S ::= \u{e9} ;", "syntax 9"),
    ("S. S ::= A\u{e9} ;", "syntax 10"),
    ("S. S ::= A\u{a0}B ;", "syntax 10"),
    ("S. S ::= ~ ;", "syntax 9"),
    ("S. S ::= # ;", "syntax 9"),
    ("S. S ::= / ;", "syntax 9"),
    ("S. S ::= \\ ;", "syntax 9"),
    ("S. S = A ;", "syntax 5"),
    ("S. S ::= = A ;", "syntax 9"),
    ("S. S ::= \x7f ;", "syntax 9"),
    ("S. S ::= \x08 ;", "syntax 9"),
    ("S. S ::= ; $", "syntax 11"),
    ("S @", "syntax 2"),
    ("S. S ::= ; \u{20ac}", "syntax 11"),
    ("S. S ::= A \u{1f600}", "syntax 11"),
    ("internal &", "syntax 9"),
];

#[test]
fn scalars_that_begin_no_token(rt: HostRuntime) -> Result<(), Fail> {
    tells(&rt, rt.alloc(), SCALARS)
}

/// Files with signs where a definition might begin.
const SIGNS: &[(&str, &str)] = &[
    (". ;", "syntax 0"),
    ("::= ;", "syntax 0"),
    (": ;", "syntax 0"),
    ("] ;", "syntax 0"),
    (") ;", "syntax 0"),
    ("{ ;", "syntax 0"),
    ("} ;", "syntax 0"),
    (", ;", "syntax 0"),
    ("| ;", "syntax 0"),
    ("* ;", "syntax 0"),
    ("+ ;", "syntax 0"),
    ("? ;", "syntax 0"),
    ("- ;", "syntax 0"),
    ("[ ;", "syntax 2"),
    ("( ;", "syntax 2"),
    ("_ ;", "syntax 2"),
    ("\"a\" ;", "syntax 0"),
    ("S. S ::= ; . ;", "syntax 11"),
    ("S. S ::= ;\n) ;", "syntax 11"),
];

#[test]
fn signs_that_begin_no_definition(rt: HostRuntime) -> Result<(), Fail> {
    tells(&rt, rt.alloc(), SIGNS)
}

/// Files with signs, and with what is no item, behind a right side.
const SIGNS_BEHIND: &[(&str, &str)] = &[
    ("S. S ::= A .", "syntax 11"),
    ("S. S ::= A ::=", "syntax 11"),
    ("S. S ::= A :", "syntax 11"),
    ("S. S ::= A ]", "syntax 11"),
    ("S. S ::= A (", "syntax 11"),
    ("S. S ::= A )", "syntax 11"),
    ("S. S ::= A { }", "syntax 11"),
    ("S. S ::= A }", "syntax 11"),
    ("S. S ::= A ,", "syntax 11"),
    ("S. S ::= A |", "syntax 11"),
    ("S. S ::= A *", "syntax 11"),
    ("S. S ::= A +", "syntax 11"),
    ("S. S ::= A ?", "syntax 11"),
    ("S. S ::= A -", "syntax 11"),
    ("S. S ::= A _", "syntax 11"),
    ("S. S ::= A [", "syntax 12"),
    ("S. S ::= A []", "syntax 12"),
    ("S. S ::= A a", "syntax 11"),
    ("S. S ::= A nonempty", "syntax 11"),
    ("S. S ::= A ; T. S ::= . ;", "syntax 22"),
    ("S. S ::= F (", "syntax 11"),
];

#[test]
fn signs_behind_a_right_side(rt: HostRuntime) -> Result<(), Fail> {
    tells(&rt, rt.alloc(), SIGNS_BEHIND)
}

/// Files that stop at a label, and some that do not.
const LABELS: &[(&str, &str)] = &[
    ("F E ::= \"a\" ;", "syntax 2"),
    ("F _ ;", "syntax 2"),
    ("F ; ", "syntax 2"),
    ("F \"a\"", "syntax 2"),
    ("F : E", "syntax 2"),
    ("F [ E", "syntax 2"),
    ("F ::= E", "syntax 2"),
    ("F.. E ::= ;", "syntax 2"),
    ("F e. E ::= ;", "syntax 2"),
    ("F internal E ::= ;", "syntax 2"),
    ("() . E ::= ;", "syntax 1"),
    ("([]) . E ::= ;", "syntax 1"),
    ("(:: ) . E ::= ;", "syntax 2"),
    ("(:[) . E ::= ;", "syntax 3"),
    ("(:[E]) . E ::= ;", "syntax 3"),
    ("(:[]] . E ::= ;", "syntax 4"),
    ("(:E) . E ::= ;", "syntax 2"),
    ("(:)) . E ::= ;", "syntax 3"),
    ("(:[])] . E ::= ;", "syntax 5"),
    ("[E] . E ::= ;", "syntax 1"),
    ("[[]] . E ::= ;", "syntax 1"),
    ("[]] . E ::= ;", "syntax 2"),
    ("[] E ::= ;", "syntax 3"),
    ("_ _ . E ::= ;", "syntax 2"),
    ("_ E ::= ;", "syntax 2"),
    ("_a . E ::= ;", "syntax 1"),
    ("internal . E ::= ;", "syntax 9"),
    ("internal \"a\" ;", "syntax 9"),
    ("internal 1 ;", "syntax 9"),
    ("internal F E ;", "syntax 11"),
    ("internal F e ;", "syntax 11"),
    ("internal _ E ;", "syntax 11"),
    ("internal () . E ::= ;", "syntax 10"),
    ("internal [E] . E ::= ;", "syntax 10"),
    ("(:) . E ::= ;", "defs 1"),
    ("( : [ ] ) . [E] ::= ;", "defs 1"),
    ("[ ] . [E] ::= ;", "defs 1"),
    ("_.E::=E", "defs 1"),
    ("internal (:). E ::= ;", "defs 1"),
    ("F_1'. E ::= ;", "defs 1"),
];

#[test]
fn labels_that_cannot_go_on(rt: HostRuntime) -> Result<(), Fail> {
    tells(&rt, rt.alloc(), LABELS)
}

/// Files that stop at a category, and some that do not.
const CATEGORIES: &[(&str, &str)] = &[
    ("F . e ::= ;", "syntax 4"),
    ("F . _ ::= ;", "syntax 4"),
    ("F . \"E\" ::= ;", "syntax 4"),
    ("F . ::= ;", "syntax 4"),
    ("F . ; ", "syntax 4"),
    ("F . [] ::= ;", "syntax 5"),
    ("F . [E ::= ;", "syntax 7"),
    ("F . [[E] ::= ;", "syntax 9"),
    ("F . E] ::= ;", "syntax 5"),
    ("F . [E]] ::= ;", "syntax 7"),
    ("F . [e] ::= ;", "syntax 5"),
    ("F . [\"a\"] ::= ;", "syntax 5"),
    ("F . (E) ::= ;", "syntax 4"),
    ("F . E . ::= ;", "syntax 6"),
    ("F . E \"a\" ;", "syntax 6"),
    ("F . E : ;", "syntax 6"),
    ("F . E :: E ;", "syntax 6"),
    ("F . E := E ;", "syntax 6"),
    ("F . E ; ", "syntax 6"),
    ("F . E F ;", "syntax 6"),
    ("F . E ::= [\"a\"] ;", "syntax 11"),
    ("F . E ::= [E, E] ;", "syntax 12"),
    ("F . E ::= [[E] ;", "syntax 15"),
    ("F . E ::= e ;", "syntax 10"),
    ("F . E ::= E, E ;", "syntax 11"),
    ("F . [ [ E ] ] ::= [E] [[F]] \"a\" E ;", "defs 1"),
    ("F. Integer ::= Char String ;", "defs 1"),
];

#[test]
fn categories_that_cannot_go_on(rt: HostRuntime) -> Result<(), Fail> {
    tells(&rt, rt.alloc(), CATEGORIES)
}

/// Files that end too early, and some that do not.
const ENDS: &[(&str, &str)] = &[
    ("S", "syntax 1"),
    ("S ", "syntax 2"),
    ("S.", "syntax 2"),
    ("S. S", "syntax 4"),
    ("S . S \n", "syntax 7"),
    ("S. -- a", "syntax 7"),
    ("S. {- a -}", "syntax 10"),
    ("_", "syntax 1"),
    ("[", "syntax 1"),
    ("(", "syntax 1"),
    ("(:", "syntax 2"),
    ("(:[", "syntax 3"),
    ("(:[]", "syntax 4"),
    ("S. [", "syntax 4"),
    ("S. [S", "syntax 5"),
    ("S. S ::= [", "syntax 10"),
    ("S. S ::= [S", "syntax 11"),
    ("internal", "syntax 8"),
    ("internal F", "syntax 10"),
    ("internal F. E ", "syntax 14"),
    ("terminator", "syntax 10"),
    ("terminator E", "syntax 12"),
    ("terminator nonempty", "syntax 19"),
    ("terminator nonempty E", "syntax 21"),
    ("separator", "syntax 9"),
    ("separator [E", "syntax 12"),
    ("coercions", "syntax 9"),
    ("coercions E", "syntax 11"),
    ("entrypoints", "syntax 11"),
    ("entrypoints E,", "syntax 14"),
    ("A. E ::= ; S", "syntax 12"),
    ("A. E ::= ; S. ", "syntax 14"),
    ("S. S ::=", "defs 1"),
    ("S. S ::= A", "defs 1"),
    ("entrypoints E", "defs 1"),
    ("coercions E 1", "defs 1"),
    ("terminator E \"a\"", "defs 1"),
    ("A. E ::= ; ", "defs 1"),
];

#[test]
fn files_that_end_within_a_definition(rt: HostRuntime) -> Result<(), Fail> {
    tells(&rt, rt.alloc(), ENDS)
}

/// Files in which a semicolon stands too early.
const EARLY_ENDS: &[(&str, &str)] = &[
    ("S ; A. E ::= ;", "syntax 2"),
    ("S. ;", "syntax 3"),
    ("S. S ;", "syntax 5"),
    ("internal ;", "syntax 9"),
    ("internal F. ;", "syntax 12"),
    ("terminator ;", "syntax 11"),
    ("terminator E ;", "syntax 13"),
    ("separator nonempty ;", "syntax 19"),
    ("separator nonempty E ;", "syntax 21"),
    ("coercions ;", "syntax 10"),
    ("coercions E ;", "syntax 12"),
    ("entrypoints ;", "syntax 12"),
    ("entrypoints E, ;", "syntax 15"),
    ("entrypoints [E ;", "syntax 15"),
    ("A. E ::= ; S ; ;", "syntax 13"),
];

#[test]
fn definitions_that_end_too_early(rt: HostRuntime) -> Result<(), Fail> {
    tells(&rt, rt.alloc(), EARLY_ENDS)
}

/// Files with words of the notation that this profile leaves out.
const LEFT_OUT: &[(&str, &str)] = &[
    ("layout \"of\" ;", "unsupported layout 0"),
    ("layout toplevel ;", "unsupported layout 0"),
    ("define f x = x ;", "unsupported define 0"),
    ("delimiters E \"(\" \")\" ;", "unsupported delimiters 0"),
    ("rules E ::= \"a\" ;", "unsupported rules 0"),
    ("add. E ::= \"+\" ;", "unsupported add 0"),
    ("add", "unsupported add 0"),
    ("nonempty E \"a\" ;", "unsupported nonempty 0"),
    ("digit ;", "unsupported digit 0"),
    ("eps. E ::= ;", "unsupported eps 0"),
    ("lower (", "unsupported lower 0"),
    ("tokens T ;", "unsupported tokens 0"),
    ("terminators E \"a\" ;", "unsupported terminators 0"),
    ("a_1' ;", "unsupported a_1' 0"),
    ("S. S ::= ; layout stop ;", "unsupported layout 11"),
    (";; {- a -} rules ;", "unsupported rules 11"),
    ("\n\tx", "unsupported x 2"),
    ("internal add. E ::= ;", "unsupported add 9"),
    ("internal layout", "unsupported layout 9"),
    ("internal internal A. E ::= ;", "unsupported internal 9"),
    ("internal token T", "unsupported token 9"),
    ("A. E ::= ; internal x. E ::= ;", "unsupported x 20"),
    ("F ([],[]) . E ::= ;", "unsupported ( 2"),
    ("F(", "unsupported ( 1"),
    ("F ( E", "unsupported ( 2"),
    ("internal F ( . E ::= ;", "unsupported ( 11"),
    ("F{--}(", "unsupported ( 5"),
    ("A. E ::= ; F\n(", "unsupported ( 13"),
    ("Internal (", "unsupported ( 9"),
    ("_ ( ;", "syntax 2"),
    ("[] ( ;", "syntax 3"),
    ("(:) ( ;", "syntax 4"),
    ("(:[]) ( ;", "syntax 6"),
    ("internal _ ( ;", "syntax 11"),
    ("F. ( ;", "syntax 3"),
    ("F. E ( ;", "syntax 5"),
    ("F E (", "syntax 2"),
    ("terminator ( ;", "syntax 11"),
    ("entrypoints ( ;", "syntax 12"),
    ("coercions ( ;", "syntax 10"),
    ("coercions E ( ;", "syntax 12"),
    ("terminator E ( ;", "syntax 13"),
    ("entrypoints E ( ;", "syntax 14"),
    ("S. S ::= layout ;", "syntax 9"),
    ("S layout ;", "syntax 2"),
    ("terminator layout ;", "syntax 11"),
    ("terminator. S ::= \"a\" ;", "syntax 10"),
    ("separator. S ::= \"a\" ;", "syntax 9"),
    ("coercions. S ::= \"a\" ;", "syntax 9"),
    ("entrypoints. S ::= \"a\" ;", "syntax 11"),
    ("internal. S ::= \"a\" ;", "syntax 8"),
    ("Layout. S ::= ;", "defs 1"),
    ("Token. S ::= ;", "defs 1"),
    ("Internal. S ::= ;", "defs 1"),
];

#[test]
fn words_that_are_not_supported(rt: HostRuntime) -> Result<(), Fail> {
    tells(&rt, rt.alloc(), LEFT_OUT)
}

/// Files that stop at a macro, and some that do not.
const MACROS: &[(&str, &str)] = &[
    ("terminator \";\" ;", "syntax 11"),
    ("terminator E F \";\" ;", "syntax 13"),
    ("terminator E \";\" \";\" ;", "syntax 17"),
    ("terminator nonempt E \";\" ;", "syntax 11"),
    ("terminator nonempty nonempty E \";\" ;", "syntax 20"),
    ("terminator E nonempty \";\" ;", "syntax 13"),
    ("terminator E 'a' ;", "syntax 13"),
    ("terminator E 1 ;", "syntax 13"),
    ("separator _ \"a\" ;", "syntax 10"),
    ("separator nonempty \"a\" ;", "syntax 19"),
    ("separator E , \"a\" ;", "syntax 12"),
    ("separator E \"a\" E ;", "syntax 16"),
    ("separator E \"a\" . ;", "syntax 16"),
    ("separator [E \"a\" ;", "syntax 13"),
    ("coercions [E] 3 ;", "syntax 10"),
    ("coercions e 3 ;", "syntax 10"),
    ("coercions 3 E ;", "syntax 10"),
    ("coercions E \"3\" ;", "syntax 12"),
    ("coercions E F ;", "syntax 12"),
    ("coercions E 3 4 ;", "syntax 14"),
    ("coercions E 3 E ;", "syntax 14"),
    ("entrypoints E F ;", "syntax 14"),
    ("entrypoints , E ;", "syntax 12"),
    ("entrypoints E,, F ;", "syntax 14"),
    ("entrypoints E, \"a\" ;", "syntax 15"),
    ("entrypoints e ;", "syntax 12"),
    ("entrypoints E. ;", "syntax 13"),
    ("entrypoints E, F G ;", "syntax 17"),
    ("entrypoints E, [F, G ;", "syntax 17"),
    ("entrypoints \"E\" ;", "syntax 12"),
    ("entrypoints E, f ;", "syntax 15"),
    ("terminator E \";\" ;", "defs 1"),
    ("terminator nonempty [E] \"\" ;", "defs 1"),
    ("separator E \"a b\" ;", "defs 1"),
    ("separator nonempty E \",\" ;", "defs 1"),
    ("coercions E 3 ;", "defs 1"),
    ("entrypoints E, [F], G ;", "defs 1"),
    ("entrypoints E ; entrypoints F ;", "defs 2"),
    ("terminator [[E]] \" \" ;", "defs 1"),
];

#[test]
fn macros_that_cannot_go_on(rt: HostRuntime) -> Result<(), Fail> {
    tells(&rt, rt.alloc(), MACROS)
}

/// Files with more than one fault.
const FIRST_FAULTS: &[(&str, &str)] = &[
    ("S S ; layout ;", "syntax 2"),
    ("layout ; ) ;", "unsupported layout 0"),
    ("token ) ;", "syntax 6"),
    ("token T 'a ; layout ;", "syntax 8"),
    ("S. S ::= e \x00", "syntax 9"),
    ("S. S ::= . \"a", "syntax 9"),
    ("S. S ::= ; ) ; {-", "syntax 11"),
    ("S. S ::= 'a' '''", "syntax 9"),
    ("A. E ::= ; B. ; token T ;", "syntax 14"),
];

#[test]
fn the_fault_that_stands_first_is_told(rt: HostRuntime) -> Result<(), Fail> {
    tells(&rt, rt.alloc(), FIRST_FAULTS)
}

/// Files of bytes that are no UTF-8, and near ones.
const BYTES: &[(&[u8], &str)] = &[
    (b"\xff", "utf8 0"),
    (b"S. S ::= \xff", "utf8 9"),
    (b"S. S ::= \"a\xff\" ;", "utf8 11"),
    (b"S. S ::= '\xff' ;", "utf8 10"),
    (b"-- \xff\n", "utf8 3"),
    (b"{- \x80 -}", "utf8 3"),
    (b"S\xa0. S ::= ;", "utf8 1"),
    // a fault of syntax before it is not told
    (b") \xff", "utf8 2"),
    (b"layout \xff", "utf8 7"),
    (b"S. S ::= \"\xc3", "utf8 10"),
    (b"S. S ::= \"\xe2\x82\" ;", "utf8 10"),
    (b"S. S ::= \"\xf0\x9f\x98", "utf8 10"),
    // longer forms than need be, surrogates, and what is above the last scalar
    (b"\"\xc0\x80\"", "utf8 1"),
    (b"\"\xe0\x80\x80\"", "utf8 1"),
    (b"\"\xed\xa0\x80\"", "utf8 1"),
    (b"\"\xf4\x90\x80\x80\"", "utf8 1"),
    (b"\"\xf5\x80\x80\x80\"", "utf8 1"),
    (b"\xef\xbb\xbf", "syntax 0"),
    (b"\xef\xbb", "utf8 0"),
];

#[test]
fn bytes_that_are_not_utf8(rt: HostRuntime) -> Result<(), Fail> {
    for (bytes, want) in BYTES {
        let answer = answer_to(rt.alloc(), bytes)?;
        assert_eq!(rt; answer.as_str(), *want, "at {bytes:?}");
    }
    Ok(())
}
