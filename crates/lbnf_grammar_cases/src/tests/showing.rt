//! What a file gives, in words.
use lbnf_grammar::*;
use lbnf_text::{Label, MAX_FILE, read_defs};
use std::alloc::{AllocError, Global};
use std::process::Abort;
use std::test::*;

/// The grammar of a file, `None` where memory, the form or the length fails.
fn expanded(alloc: Global, file: &str) -> Option<Result<Grammar, GrammarFault>> {
    if MAX_FILE < file.len() {
        return None;
    }
    match read_defs(alloc, file.as_bytes()) {
        Ok(defs) => Some(expand(alloc, &defs)),
        Err(_) => None,
    }
}

/// The grammar of a file, `None` where there is none.
pub fn grammar_of(alloc: Global, file: &str) -> Option<Grammar> {
    expanded(alloc, file)?.ok()
}

/// The label as it is written.
fn label_text(label: &Label) -> &str {
    match label {
        Label::Named(name) => name.as_str(),
        Label::Wild => "_",
        Label::Nil => "[]",
        Label::Cons => "(:)",
        Label::One => "(:[])",
    }
}

/// The text of the category, or a question mark where it is none of the grammar.
fn category(grammar: &Grammar, c: u16) -> &str {
    if c < grammar.category_count() {
        return grammar.category_name(c).as_str();
    }
    "?"
}

/// Adds the symbol, with its number behind it.
fn add_symbol(
    alloc: Global,
    text: &mut String,
    grammar: &Grammar,
    symbol: Symbol,
) -> Result<(), AllocError> {
    match symbol {
        Symbol::Category(c) => {
            let name = category(grammar, c);
            text.push_str(format!(in alloc; " {name}:{c}")?.as_str())?;
        }
        Symbol::Kind(k) => {
            text.push_str(format!(in alloc; " '{k}'")?.as_str())?;
        }
    }
    Ok(())
}

/// Adds the rule, with a semicolon behind it.
fn add_rule(
    alloc: Global,
    text: &mut String,
    grammar: &Grammar,
    rule: &Rule,
) -> Result<(), AllocError> {
    text.push_str(label_text(&rule.label))?;
    add_symbol(alloc, text, grammar, Symbol::Category(rule.category))?;
    text.push_str(" =")?;
    for item in rule.items.as_slice() {
        add_symbol(alloc, text, grammar, *item)?;
    }
    text.push_str("; ")
}

/// Adds the rules by number.
fn add_rules(alloc: Global, text: &mut String, grammar: &Grammar) -> Result<(), AllocError> {
    for number in 0..grammar.rule_count() {
        add_rule(alloc, text, grammar, grammar.rule(number))?;
    }
    Ok(())
}

/// The entry of the grammar, with a space before it.
fn add_entry(alloc: Global, text: &mut String, grammar: &Grammar) -> Result<(), AllocError> {
    match grammar.entry() {
        Some(symbol) => add_symbol(alloc, text, grammar, symbol),
        None => Ok(()),
    }
}

/// The rules of the grammar in one line, and its entry.
fn rules_text(alloc: Global, grammar: &Grammar) -> Result<String, AllocError> {
    let mut text = String::new(alloc);
    add_rules(alloc, &mut text, grammar)?;
    text.push_str("entry")?;
    add_entry(alloc, &mut text, grammar)?;
    Ok(text)
}

fn entry_text(alloc: Global, grammar: &Grammar) -> Result<String, AllocError> {
    let mut text = String::new(alloc);
    add_entry(alloc, &mut text, grammar)?;
    Ok(text)
}

/// How many rules, categories and kinds there are; twice where there is a list of them.
fn counts_text(alloc: Global, grammar: &Grammar) -> Result<String, AllocError> {
    let rules = grammar.rule_count();
    let listed = grammar.rules().len();
    let categories = grammar.category_count();
    let kinds = grammar.kind_count();
    let kinds_listed = grammar.kinds().len();
    format!(in alloc;
        "rules {rules} {listed}, categories {categories}, kinds {kinds} {kinds_listed}"
    )
}

fn add_word(text: &mut String, word: &str) -> Result<(), AllocError> {
    text.push_str(" ")?;
    text.push_str(word)
}

/// The name of the kind, or its word in quotes.
fn add_kind(alloc: Global, text: &mut String, kind: &KindDef) -> Result<(), AllocError> {
    match kind {
        KindDef::Word(word) => {
            let word = word.as_str();
            text.push_str(format!(in alloc; " '{word}'")?.as_str())
        }
        KindDef::Token { name, .. } => add_word(text, name.as_str()),
    }
}

/// The words that begin and end comments, each with a space before it.
fn add_comments(text: &mut String, grammar: &Grammar) -> Result<(), AllocError> {
    for opening in grammar.line_comments() {
        add_word(text, opening.as_str())?;
    }
    for words in grammar.block_comments() {
        add_word(text, words.0.as_str())?;
        add_word(text, words.1.as_str())?;
    }
    Ok(())
}

/// The kinds by number, each with a space before it.
fn add_kinds(alloc: Global, text: &mut String, grammar: &Grammar) -> Result<(), AllocError> {
    for number in 0..grammar.kind_count() {
        add_kind(alloc, text, grammar.kind(number))?;
    }
    Ok(())
}

/// The words that begin and end comments, and the kinds.
fn lexicon_text(alloc: Global, grammar: &Grammar) -> Result<String, AllocError> {
    let mut text = String::new(alloc);
    add_comments(&mut text, grammar)?;
    add_kinds(alloc, &mut text, grammar)?;
    Ok(text)
}

/// The categories by number, each with a space before it.
fn categories_text(alloc: Global, grammar: &Grammar) -> Result<String, AllocError> {
    let mut text = String::new(alloc);
    for number in 0..grammar.category_count() {
        add_word(&mut text, grammar.category_name(number).as_str())?;
    }
    Ok(text)
}

/// What is shown of a grammar.
#[derive(Clone, Copy, Debug)]
pub enum Part {
    Rules,
    Entry,
    Counts,
    Lexicon,
    Categories,
}

fn part_text(alloc: Global, part: Part, grammar: &Grammar) -> Result<String, AllocError> {
    match part {
        Part::Rules => rules_text(alloc, grammar),
        Part::Entry => entry_text(alloc, grammar),
        Part::Counts => counts_text(alloc, grammar),
        Part::Lexicon => lexicon_text(alloc, grammar),
        Part::Categories => categories_text(alloc, grammar),
    }
}

/// The part of the file's grammar.
pub fn shown(alloc: Global, part: Part, file: &str) -> Result<String, AllocError> {
    match grammar_of(alloc, file) {
        Some(grammar) => part_text(alloc, part, &grammar),
        None => String::from_str(alloc, "no grammar"),
    }
}

/// Compares this part of each file's grammar with the text beside it.
pub fn shows(
    rt: &impl Abort,
    alloc: Global,
    part: Part,
    cases: &[(&str, &str)],
) -> Result<(), Fail> {
    for (file, want) in cases {
        let text = shown(alloc, part, file)?;
        assert_eq!(rt; text.as_str().trim_start(), *want, "at {file}");
    }
    Ok(())
}

/// What is told of definitions that are refused.
fn fault_text(alloc: Global, fault: &GrammarFault) -> Result<String, AllocError> {
    match fault {
        GrammarFault::Memory => String::from_str(alloc, "memory"),
        GrammarFault::BadCoercion { def } => format!(in alloc; "coercion {def}"),
        GrammarFault::BadList { def } => format!(in alloc; "list {def}"),
        GrammarFault::TooManyRules { count } => format!(in alloc; "rules {count}"),
        GrammarFault::RepeatedToken { name } => {
            let name = name.as_str();
            format!(in alloc; "token {name}")
        }
        GrammarFault::UnknownCategory { name, def } => {
            let name = name.as_str();
            format!(in alloc; "category {name} {def}")
        }
        GrammarFault::Cyclic { name } => {
            let name = name.as_str();
            format!(in alloc; "cyclic {name}")
        }
    }
}

/// How many rules and categories the file gives, or what is told of it.
fn answer(alloc: Global, file: &str) -> Result<String, AllocError> {
    match expanded(alloc, file) {
        Some(Ok(grammar)) => {
            let rules = grammar.rule_count();
            let categories = grammar.category_count();
            format!(in alloc; "grammar {rules} {categories}")
        }
        Some(Err(fault)) => fault_text(alloc, &fault),
        None => String::from_str(alloc, "unread"),
    }
}

/// Compares what is told of each file with the answer beside it.
pub fn tells(rt: &impl Abort, alloc: Global, cases: &[(&str, &str)]) -> Result<(), Fail> {
    for (file, want) in cases {
        let told = answer(alloc, file)?;
        assert_eq!(rt; told.as_str(), *want, "at {file}");
    }
    Ok(())
}
