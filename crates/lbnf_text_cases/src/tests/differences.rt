//! Differences of token expressions, good and bad, with answers by hand.
use super::files::tells;
use std::test::*;

/// Files with differences.
const DIFFERENCES: &[(&str, &str)] = &[
    ("token T char - [\"\\\"\\\\\"] ;", "defs 1"),
    ("token T char - 'a' ;", "defs 1"),
    ("token T char - '\u{7f}' ;", "defs 1"),
    ("token T char - '\u{80}' ;", "difference 13"),
    ("token T char - [\"a\u{e9}\"] ;", "difference 13"),
    ("token T [\"a\u{e9}\"] - [\"a\"] ;", "defs 1"),
    ("token T char - [\"\"] ;", "defs 1"),
    ("token T digit - char ;", "difference 14"),
    ("token T digit - (digit - char) ;", "difference 23"),
    ("token T digit - (char - digit) ;", "difference 14"),
    ("token T letter - (upper | digit | '_') ;", "defs 1"),
    ("token T letter - (upper | char) ;", "difference 15"),
    ("token T ('a' | [\"b\"] | char) - lower ;", "defs 1"),
    ("token T ('a' | {\"b\"}) - lower ;", "difference 22"),
    ("token T (char - 'a') - 'b' ;", "defs 1"),
    ("token T ('a' 'b') - 'a' ;", "difference 18"),
    ("token T ('a' 'b') - (char - '\u{e9}') ;", "difference 18"),
    ("token T char - '\u{e9}' - eps ;", "difference 13"),
    ("token T (char - eps) - '\u{e9}' ;", "difference 14"),
    ("token T 'a'* - 'a' ;", "difference 13"),
    ("token T 'a' - 'a'* ;", "difference 12"),
    ("token T eps - 'a' ;", "difference 12"),
    ("token T {\"a\"} - 'a' ;", "difference 14"),
    ("token T (char - eps)* ;", "difference 14"),
    ("token T ('a' (char - eps)?)+ ;", "difference 19"),
    (
        "token T 'a' | 'b' - 'c' - eps | eps - 'd' ;",
        "difference 24",
    ),
    (
        "token T 'a' - 'b' ; A. S ::= \"-\" ; token U char - eps ;",
        "difference 48",
    ),
    ("token T eps - eps ; token U 'a' - char ;", "difference 12"),
    ("token T char - eps ; layout ;", "unsupported layout 21"),
    ("token T char - eps ; S S ;", "syntax 23"),
    ("token T char - eps ; {-", "syntax 21"),
    ("token T eps - eps ; token U", "syntax 27"),
];

#[test]
fn a_difference_is_one_of_a_class_and_an_ascii_class(rt: HostRuntime) -> Result<(), Fail> {
    tells(&rt, rt.alloc(), DIFFERENCES)
}
