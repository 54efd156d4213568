//! What each form of definition gives, with answers by hand.
use super::expressions::show_expr;
use lbnf_text::{CatName, Def, Label, RawItem, RawRule, read_defs};
use std::alloc::{AllocError, Global};
use std::process::Abort;
use std::test::*;

fn show_cat(out: &mut Vec<u8>, cat: &CatName) -> Result<(), AllocError> {
    out.push(b' ')?;
    for _ in 0..cat.depth {
        out.push(b'[')?;
    }
    out.extend_from_slice(cat.name.as_slice())?;
    for _ in 0..cat.depth {
        out.push(b']')?;
    }
    Ok(())
}

fn show_word(out: &mut Vec<u8>, word: &[u8]) -> Result<(), AllocError> {
    out.extend_from_slice(b" \"".as_slice())?;
    out.extend_from_slice(word)?;
    out.push(b'"')?;
    Ok(())
}

fn label_text(label: &Label) -> &[u8] {
    match label {
        Label::Named(name) => name.as_slice(),
        Label::Wild => b"_".as_slice(),
        Label::Nil => b"[]".as_slice(),
        Label::Cons => b"(:)".as_slice(),
        Label::One => b"(:[])".as_slice(),
    }
}

fn show_rule(out: &mut Vec<u8>, rule: &RawRule) -> Result<(), AllocError> {
    out.push(b' ')?;
    out.extend_from_slice(label_text(&rule.label))?;
    show_cat(out, &rule.cat)?;
    for item in rule.items.as_slice() {
        match item {
            RawItem::Cat(cat) => show_cat(out, cat)?,
            RawItem::Word(word) => show_word(out, word.as_slice())?,
        }
    }
    Ok(())
}

fn show_macro(
    out: &mut Vec<u8>,
    nonempty: bool,
    cat: &CatName,
    word: &[u8],
) -> Result<(), AllocError> {
    if nonempty {
        out.extend_from_slice(b" nonempty".as_slice())?;
    }
    show_cat(out, cat)?;
    show_word(out, word)
}

fn show_levels(
    alloc: Global,
    out: &mut Vec<u8>,
    name: &[u8],
    levels: u16,
) -> Result<(), AllocError> {
    out.extend_from_slice(name)?;
    let digits = format!(in alloc; " {levels}")?;
    out.extend_from_slice(digits.as_bytes())
}

fn show_categories(out: &mut Vec<u8>, cats: &[CatName]) -> Result<(), AllocError> {
    for cat in cats {
        show_cat(out, cat)?;
    }
    Ok(())
}

/// The word for a definition's form.
fn form_of(def: &Def) -> &str {
    match def {
        Def::Rule(_) => "rule",
        Def::Internal(_) => "internal",
        Def::Terminator { .. } => "terminator",
        Def::Separator { .. } => "separator",
        Def::Coercions { .. } => "coercions ",
        Def::Entry(_) => "entry",
        Def::Token { .. } => "token ",
        Def::LineComment(_) => "comment",
        Def::BlockComment(_, _) => "comment",
    }
}

fn show_parts(alloc: Global, out: &mut Vec<u8>, def: &Def) -> Result<(), AllocError> {
    match def {
        Def::Rule(rule) => show_rule(out, rule),
        Def::Internal(rule) => show_rule(out, rule),
        Def::Terminator {
            nonempty,
            cat,
            word,
        } => show_macro(out, *nonempty, cat, word.as_slice()),
        Def::Separator {
            nonempty,
            cat,
            word,
        } => show_macro(out, *nonempty, cat, word.as_slice()),
        Def::Coercions { name, levels } => show_levels(alloc, out, name.as_slice(), *levels),
        Def::Entry(cats) => show_categories(out, cats.as_slice()),
        Def::Token { name, expr } => {
            out.extend_from_slice(name.as_slice())?;
            show_expr(alloc, out, expr)
        }
        Def::LineComment(opening) => show_word(out, opening.as_slice()),
        Def::BlockComment(opening, closing) => {
            show_word(out, opening.as_slice())?;
            show_word(out, closing.as_slice())
        }
    }
}

fn show_def(alloc: Global, out: &mut Vec<u8>, def: &Def) -> Result<(), AllocError> {
    out.extend_from_slice(form_of(def).as_bytes())?;
    show_parts(alloc, out, def)
}

/// The definitions of the file, each with a bar behind it, and nothing where it cannot be read.
pub fn shown(alloc: Global, text: &str) -> Result<Vec<u8>, AllocError> {
    let mut out = Vec::new(alloc);
    if let Ok(defs) = read_defs(alloc, text.as_bytes()) {
        for def in defs.as_slice() {
            show_def(alloc, &mut out, def)?;
            out.push(b'|')?;
        }
    }
    Ok(out)
}

/// Compares what each file gives with the text beside it.
fn shows(rt: &impl Abort, alloc: Global, cases: &[(&str, &str)]) -> Result<(), Fail> {
    for (text, want) in cases {
        let answer = shown(alloc, text)?;
        assert_eq!(rt; answer.as_slice(), want.as_bytes(), "at {text:?}");
    }
    Ok(())
}

/// Definitions, and their parts.
const FORMS: &[(&str, &str)] = &[
    ("A. E ::= ;", "rule A E|"),
    ("A1_'. E' ::= E' [F] \"x\" ;", "rule A1_' E' E' [F] \"x\"|"),
    ("_ . E ::= E1 ;", "rule _ E E1|"),
    ("[] . [E] ::= ;", "rule [] [E]|"),
    (
        "(:) . [[E]] ::= [E] \",\" [[E]]",
        "rule (:) [[E]] [E] \",\" [[E]]|",
    ),
    ("(:[]) . [E] ::= E", "rule (:[]) [E] E|"),
    ("internal A. E ::= F \"x\" ;", "internal A E F \"x\"|"),
    ("internal (:[]). [E] ::= E ;", "internal (:[]) [E] E|"),
    ("terminator E \";\" ;", "terminator E \";\"|"),
    (
        "terminator nonempty [E] \"\"",
        "terminator nonempty [E] \"\"|",
    ),
    ("separator E \" , \" ;", "separator E \" , \"|"),
    (
        "separator nonempty E \"a b\"",
        "separator nonempty E \"a b\"|",
    ),
    ("coercions Exp 15 ;", "coercions Exp 15|"),
    ("coercions Exp 0012 ;", "coercions Exp 12|"),
    ("coercions Exp 9999 ;", "coercions Exp 9999|"),
    ("entrypoints E ;", "entry E|"),
    ("entrypoints E, [F],G ;", "entry E [F] G|"),
    ("token T 'a' ;", "token T 'a|"),
    ("position token T eps", "token T eps|"),
    ("comment \"//\" ;", "comment \"//\"|"),
    ("comment \"/*\" \" */\" ;", "comment \"/*\" \" */\"|"),
    (
        "Internal . Terminator ::= Coercions",
        "rule Internal Terminator Coercions|",
    ),
];

#[test]
fn each_form_gives_its_parts(rt: HostRuntime) -> Result<(), Fail> {
    shows(&rt, rt.alloc(), FORMS)
}

/// Rules with strings, and their items.
const STRINGS: &[(&str, &str)] = &[
    ("A. E ::= \"\"", "rule A E|"),
    ("A. E ::= \"   \"", "rule A E|"),
    ("A. E ::= \" a  b c \" ;", "rule A E \"a\" \"b\" \"c\"|"),
    ("A. E ::= \"a\" \"\" E \" b\"", "rule A E \"a\" E \"b\"|"),
    ("A. E ::= \"é €\"", "rule A E \"é\" \"€\"|"),
    ("A. E ::= \"\\\"\\'\\\\\"", "rule A E \"\"'\\\"|"),
    ("A. E ::= \"a\\nb\\tc\"", "rule A E \"a\nb\tc\"|"),
    ("A. E ::= \"a\tb\"", "rule A E \"a\tb\"|"),
    ("A. E ::= \"a;b\" \"--\" ;", "rule A E \"a;b\" \"--\"|"),
];

#[test]
fn strings_of_items_are_cut_at_spaces(rt: HostRuntime) -> Result<(), Fail> {
    shows(&rt, rt.alloc(), STRINGS)
}

/// Files of more than one definition.
const ORDERS: &[(&str, &str)] = &[
    ("A. E ::= ; B. F ::= A", "rule A E|rule B F A|"),
    (
        ";; coercions E 1 ;; -- one\n; A. E ::= E1 {- two -} ; ;",
        "coercions E 1|rule A E E1|",
    ),
    (
        "Skip. Stm ::= \"skip\" ; terminator Stm \";\" ;",
        "rule Skip Stm \"skip\"|terminator Stm \";\"|",
    ),
    (
        "entrypoints B; internal X. B ::= \"b\"; separator B \"\"; X. B ::=",
        "entry B|internal X B \"b\"|separator B \"\"|rule X B|",
    ),
];

#[test]
fn definitions_stand_in_file_order(rt: HostRuntime) -> Result<(), Fail> {
    shows(&rt, rt.alloc(), ORDERS)
}
