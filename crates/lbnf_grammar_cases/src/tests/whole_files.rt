//! Files of all forms: what they stand for, and why they are refused.
use super::showing::{Part, shown, shows, tells};
use super::{LIST, STATEMENTS, SUMS};
use std::test::*;

/// Files, and the rules that they stand for.
const RULES: &[(&str, &str)] = &[
    (
        SUMS,
        "Add Exp:0 = Exp:0 Tail:1; Rest Tail:1 = Plus:2 Exp:0; P Plus:2 = '0'; \
         One Exp:0 = '1'; Two Exp:0 = '0'; entry Exp:0",
    ),
    (
        STATEMENTS,
        "If S:0 = '0' E:1 S:0 '1' S:0; Skip S:0 =; Var E:1 = '2'; entry S:0",
    ),
    ("A. E ::= \"a\" E ;", "A E:0 = '0' E:0; entry E:0"),
    (
        "terminator E \";\" ; A. E ::= \"a\" ;",
        "[] [E]:0 =; (:) [E]:0 = E:1 '0' [E]:0; A E:1 = '1'; entry [E]:0",
    ),
    (
        "terminator nonempty E \";\" ; A. E ::= \"a\" ;",
        "(:[]) [E]:0 = E:1 '0'; (:) [E]:0 = E:1 '0' [E]:0; A E:1 = '1'; entry [E]:0",
    ),
    (
        "separator E \",\" ; A. E ::= \"a\" ;",
        "[] [E]:0 =; (:[]) [E]:0 = E:1; (:) [E]:0 = E:1 '0' [E]:0; A E:1 = '1'; entry [E]:0",
    ),
    (
        "separator nonempty E \",\" ; A. E ::= \"a\" ;",
        "(:[]) [E]:0 = E:1; (:) [E]:0 = E:1 '0' [E]:0; A E:1 = '1'; entry [E]:0",
    ),
    (
        "separator E \"\" ; A. E ::= \"a\" ;",
        "[] [E]:0 =; (:) [E]:0 = E:1 [E]:0; A E:1 = '0'; entry [E]:0",
    ),
    (
        "separator nonempty E \"  \" ; A. E ::= \"a\" ;",
        "(:[]) [E]:0 = E:1; (:) [E]:0 = E:1 [E]:0; A E:1 = '0'; entry [E]:0",
    ),
    (
        "separator E \"a b\" ; A. E ::= \"b\" ;",
        "[] [E]:0 =; (:[]) [E]:0 = E:1; (:) [E]:0 = E:1 '0' '1' [E]:0; A E:1 = '1'; \
         entry [E]:0",
    ),
    (
        "terminator [E] \".\" ; terminator E \";\" ; A. E ::= \"a\" ;",
        "[] [[E]]:0 =; (:) [[E]]:0 = [E]:1 '0' [[E]]:0; [] [E]:1 =; \
         (:) [E]:1 = E:2 '1' [E]:1; A E:2 = '2'; entry [[E]]:0",
    ),
    (
        "coercions E 1 ;",
        "_ E:0 = E1:1; _ E1:1 = '0' E:0 '1'; entry E:0",
    ),
    (
        "coercions E 02 ;",
        "_ E:0 = E1:1; _ E1:1 = E2:2; _ E2:2 = '0' E:0 '1'; entry E:0",
    ),
    (
        "internal Hid. T ::= U ; A. S ::= \"a\" T ;",
        "A S:0 = '0' T:1; entry S:0",
    ),
    ("internal Hid. T ::= U ;", "entry"),
    ("", "entry"),
    (
        "token Hex {\"0x\"} (digit|[\"abcdef\"])+ ; H. S ::= Hex ; I. S ::= Integer ;",
        "H S:0 = '0'; I S:0 = '1'; entry S:0",
    ),
    (
        "A. S ::= Char [Id] \"w\" Double ; separator Id \",\" ; position token Id letter+ ;",
        "A S:0 = '4' [Id]:1 '0' '3'; [] [Id]:1 =; (:[]) [Id]:1 = '2'; \
         (:) [Id]:1 = '2' '1' [Id]:1; entry S:0",
    ),
    (
        "entrypoints Id ; A. S ::= Integer ; token Id letter ; token Integer digit ;",
        "A S:0 = '1'; entry '0'",
    ),
];

#[test]
fn each_form_gives_its_rules(rt: HostRuntime) -> Result<(), Fail> {
    shows(&rt, rt.alloc(), Part::Rules, RULES)
}

/// Files, and their kinds and comments.
const LEXICONS: &[(&str, &str)] = &[
    (SUMS, "'+' '1'"),
    (
        "token Hex {\"0x\"} (digit|[\"abcdef\"])+ ; H. S ::= Hex ; I. S ::= Integer ;",
        "Hex Integer",
    ),
    (
        "A. S ::= Char \"w\" Double ; token Id letter+ ; token Ident letter ; entrypoints String ;",
        "'w' Id Ident Double String Char",
    ),
    ("internal A. S ::= Integer ; B. T ::= Ident ;", "Ident"),
    (
        "comment \"--\" ; comment \"{-\" \"-}\" ; comment \"#\" ;",
        "-- # {- -}",
    ),
];

#[test]
fn words_tokens_and_predefined_kinds_are_numbered_in_turn(rt: HostRuntime) -> Result<(), Fail> {
    shows(&rt, rt.alloc(), Part::Lexicon, LEXICONS)
}

/// Entry points behind a file with a list, and its entry.
const ENTRY_POINTS: &[(&str, &str)] = &[
    ("", "S:0"),
    ("entrypoints T ;", "T:1"),
    ("entrypoints T, S ;", "T:1"),
    ("entrypoints [T], S ;", "[T]:2"),
    ("entrypoints S ; entrypoints T ;", "S:0"),
    ("entrypoints T ; entrypoints S ;", "T:1"),
];

#[test]
fn the_entry_is_the_first_of_the_first_entry_points(rt: HostRuntime) -> Result<(), Fail> {
    for (points, want) in ENTRY_POINTS {
        let file = format!(in rt.alloc(); "{LIST}{points}")?;
        let entry = shown(rt.alloc(), Part::Entry, file.as_str())?;
        assert_eq!(rt; entry.as_str().trim_start(), *want, "at {points}");
    }
    Ok(())
}

/// Files with rules whose labels are at odds with their items, and near ones.
const LABELS: &[(&str, &str)] = &[
    ("_. E ::= \"a\" ;", "coercion 0"),
    ("_. E ::= ;", "coercion 0"),
    ("_. E ::= E E ;", "coercion 0"),
    ("_. E ::= \"(\" E \")\" ;", "grammar 1 1"),
    ("internal _. E ::= \"a\" ;", "coercion 0"),
    ("internal _. E ::= F F ;", "coercion 0"),
    ("internal _. E ::= F ;", "grammar 0 1"),
    ("coercions E 0 ;", "coercion 0"),
    ("coercions E 0000 ;", "coercion 0"),
    ("[]. E ::= ;", "list 0"),
    ("[]. [E] ::= E ; A. E ::= \"a\" ;", "list 0"),
    ("[]. [E] ::= \"nil\" ;", "grammar 1 1"),
    ("(:[]). E ::= E ;", "list 0"),
    ("(:[]). [E] ::= ;", "list 0"),
    ("(:[]). [E] ::= E E ;", "list 0"),
    ("(:[]). [E] ::= \"(\" E \")\" ; A. E ::= ;", "grammar 2 2"),
    ("(:). [E] ::= E ;", "list 0"),
    ("(:). [E] ::= E E ;", "list 0"),
    ("(:). [E] ::= [E] E ;", "list 0"),
    ("(:). [E] ::= E [E] [E] ;", "list 0"),
    ("(:). E ::= E [E] ;", "list 0"),
    ("(:). [E] ::= E \",\" [E] ; A. E ::= ;", "grammar 2 2"),
    ("A. [E] ::= ;", "list 0"),
    ("_. [E] ::= E ;", "list 0"),
    ("_. [E] ::= [F] ; [] . [F] ::= ;", "grammar 2 2"),
    ("_. E ::= [E] ; [] . [E] ::= ;", "grammar 2 2"),
    ("internal A. [E] ::= ;", "list 0"),
    ("internal (:). [E] ::= E ;", "list 0"),
    ("internal []. [E] ::= ;", "grammar 0 1"),
];

#[test]
fn bad_coercions_and_bad_lists_are_told(rt: HostRuntime) -> Result<(), Fail> {
    tells(&rt, rt.alloc(), LABELS)
}

/// Files with about 1,024 rules, and with more.
const COUNTS: &[(&str, &str)] = &[
    ("coercions E 1023 ;", "grammar 1024 1024"),
    ("coercions E 1024 ;", "rules 1025"),
    ("coercions E 9999 ;", "rules 10000"),
    ("coercions E 9999 ; coercions F 9999 ;", "rules 20000"),
    ("coercions E 1022 ; A. F ::= ;", "grammar 1024 1024"),
    (
        "coercions E 1022 ; internal A. F ::= ;",
        "grammar 1023 1024",
    ),
    (
        "coercions E 1021 ; terminator E \";\" ;",
        "grammar 1024 1023",
    ),
    ("coercions E 1022 ; terminator E \";\" ;", "rules 1025"),
    ("coercions E 1021 ; separator E \",\" ;", "rules 1025"),
    (
        "coercions E 1021 ; separator nonempty E \",\" ;",
        "grammar 1024 1023",
    ),
    (
        "coercions E 1021 ; separator E \" \" ;",
        "grammar 1024 1023",
    ),
    (
        "coercions E 1021 ; separator nonempty E \"\" ;",
        "grammar 1024 1023",
    ),
];

#[test]
fn rules_are_counted_up_to_1024(rt: HostRuntime) -> Result<(), Fail> {
    tells(&rt, rt.alloc(), COUNTS)
}

/// Files with names that may not be taken or are not known, with cycles, and near ones.
const NAMES: &[(&str, &str)] = &[
    ("A. Ident ::= \"a\" ;", "token Ident"),
    ("internal A. String ::= ;", "token String"),
    ("coercions Char 1 ;", "token Char"),
    ("coercions Cha 1 ;", "grammar 2 2"),
    ("S. S ::= T ;", "category T 0"),
    ("S. S ::= \"a\" [S] ;", "category [S] 0"),
    ("S. S ::= [[S]] ;", "category [[S]] 0"),
    ("S. S ::= [Ident] ;", "category [Ident] 0"),
    ("terminator Foo \";\" ;", "category Foo 0"),
    ("separator nonempty Foo \",\" ;", "category Foo 0"),
    ("coercions E 1 ; S. S ::= E2 ;", "category E2 1"),
    ("entrypoints S ;", "category S 0"),
    ("A. S ::= ; entrypoints S, T, U ;", "category T 1"),
    ("S. S ::= Integer ;", "grammar 1 1"),
    ("A. S ::= ; B. T ::= Double ;", "grammar 2 2"),
    ("terminator Ident \";\" ;", "grammar 2 1"),
    ("A. S ::= ; entrypoints S, Char ;", "grammar 1 1"),
    ("internal A. T ::= U Ident ; B. S ::= T ;", "grammar 1 2"),
    ("A. S ::= S ;", "cyclic S"),
    ("coercions E 1 ; A. E1 ::= E ;", "cyclic E"),
    ("separator E \"\" ; A. E ::= [E] ;", "cyclic [E]"),
    ("A. E ::= [E] ; separator E \"\" ;", "cyclic E"),
    ("terminator nonempty E \"\" ; A. E ::= ;", "cyclic [E]"),
    ("internal A. S ::= S ;", "grammar 0 1"),
];

#[test]
fn names_that_are_predefined_or_unknown_are_told(rt: HostRuntime) -> Result<(), Fail> {
    tells(&rt, rt.alloc(), NAMES)
}

/// Files with two faults, and the one that is told.
const TWO_FAULTS: &[(&str, &str)] = &[
    ("A. [E] ::= ; _. E ::= ;", "list 0"),
    ("_. E ::= ; A. [E] ::= ;", "coercion 0"),
    ("A. E ::= ; A. [E] ::= ; coercions E 0 ;", "list 1"),
    ("A. E ::= ; coercions E 0 ; A. [E] ::= ;", "coercion 1"),
    ("_. [E] ::= ;", "coercion 0"),
    ("_. [E] ::= E E ;", "coercion 0"),
    ("internal A. [E] ::= ; _. E ::= ;", "list 0"),
    ("internal _. E ::= ; []. E ::= ;", "coercion 0"),
    ("; ; A. E ::= ; ; _. E ::= ;", "coercion 1"),
    ("coercions E 9999 ; _. E ::= ;", "coercion 1"),
    ("coercions E 9999 ; A. [E] ::= ;", "list 1"),
    ("coercions E 9999 ; coercions E 0 ;", "coercion 1"),
    ("coercions Ident 9999 ; (:). [E] ::= E ;", "list 1"),
    ("A. Ident ::= ; _. E ::= ;", "coercion 1"),
    ("A. Ident ::= ; A. [E] ::= ;", "list 1"),
    ("A. [Ident] ::= ;", "list 0"),
    ("S. S ::= T ; _. E ::= ;", "coercion 1"),
    ("S. S ::= T ; []. E ::= ;", "list 1"),
    ("entrypoints T ; coercions E 0 ;", "coercion 1"),
    ("S. S ::= Ident ; coercions E 0 ;", "coercion 1"),
    ("A. S ::= S ; _. E ::= ;", "coercion 1"),
    ("A. S ::= S ; (:[]). [E] ::= ;", "list 1"),
    ("coercions Ident 1024 ;", "rules 1025"),
    ("A. Ident ::= ; coercions E 1024 ;", "rules 1026"),
    ("internal A. Char ::= ; coercions E 1024 ;", "rules 1025"),
    ("S. S ::= T ; coercions E 1024 ;", "rules 1026"),
    ("S. S ::= Ident ; coercions E 1024 ;", "rules 1026"),
    ("entrypoints T ; coercions E 1024 ;", "rules 1025"),
    ("A. S ::= S ; coercions E 1024 ;", "rules 1026"),
    ("token T 'a' ; token T 'b' ;", "token T"),
    (
        "token T 'a' ; token U 'a' ; A. S ::= U ; token U 'b' ;",
        "token U",
    ),
    ("A. T ::= ; token T 'a' ;", "token T"),
    ("internal A. T ::= ; token U 'a' ; token T 'a' ;", "token T"),
    ("token T 'a' ; token T 'b' ; A. Integer ::= ;", "token T"),
    (
        "A. Integer ::= ; token T 'a' ; token T 'b' ;",
        "token Integer",
    ),
    ("coercions E 1 ; token E1 'a' ;", "token E1"),
    ("token Integer 'a' ; A. Integer ::= ;", "token Integer"),
    ("token T 'a' ; A. [T] ::= ;", "list 1"),
    ("token T 'a' ; A. S ::= [T] ;", "category [T] 1"),
    ("B. E ::= T ; A. Integer ::= ;", "token Integer"),
    ("entrypoints T ; A. Integer ::= ;", "token Integer"),
    ("A. E ::= Ident ; B. Char ::= ;", "token Char"),
    ("A. Ident ::= Ident ;", "token Ident"),
    ("A. Double ::= ; B. Integer ::= ;", "token Double"),
    ("internal A. Char ::= ; B. Ident ::= ;", "token Char"),
    ("B. Ident ::= ; internal A. Char ::= ;", "token Ident"),
    ("A. S ::= S ; B. String ::= ;", "token String"),
    (
        "coercions E 1 ; A. E1 ::= E ; coercions Char 1 ;",
        "token Char",
    ),
    ("S. S ::= Ident T ;", "category T 0"),
    ("S. S ::= T Ident ;", "category T 0"),
    ("S. S ::= T U ;", "category T 0"),
    ("A. S ::= U ; B. S ::= T ;", "category U 0"),
    ("entrypoints T ; S. S ::= U ;", "category T 0"),
    ("S. S ::= U ; entrypoints T ;", "category U 0"),
    ("entrypoints Ident, T ; A. S ::= ;", "category T 0"),
    ("entrypoints T, Ident ; A. S ::= ;", "category T 0"),
    ("separator T \",\" ; entrypoints Ident ;", "category T 0"),
    ("A. S ::= S ; B. S ::= T ;", "category T 1"),
    ("A. S ::= S ; B. S ::= Ident ;", "cyclic S"),
    ("A. S ::= S ; entrypoints T ;", "category T 1"),
    ("A. T ::= S ; B. S ::= S ;", "cyclic S"),
    ("A. T ::= S T ; B. S ::= S ; C. S ::= ;", "cyclic T"),
];

#[test]
fn of_two_faults_the_one_that_is_looked_for_first_is_told(rt: HostRuntime) -> Result<(), Fail> {
    tells(&rt, rt.alloc(), TWO_FAULTS)
}
