//! How many rules definitions give, counted without making them.
ghost use Rattle.std.specs.Prelude.{◌≡◌, ◌≤◌, length};
ghost use Rattle.spec_lbnf.specs.Limits.{size_of};
ghost use Rattle.spec_lbnf.specs.declared.definition.CatName.{CatName};
ghost use Rattle.spec_lbnf.specs.Words.{is_empty};
ghost use Rattle.spec_lbnf.specs.Expansion.{word_items, separator_rules, rules_of_def, rules_of};
ghost use Rattle.spec_lbnf.specs.Checks.{HasFewRules, AtCount};
ghost use Rattle.lbnf_grammar.specs.Checking.{ChecksWithoutMemory};

use spec_lbnf::{Def, GrammarFault};
use spec_text::MAX_RULES;

/// Whether the string has no words.
fn is_wordless(text: &[u8]) -> bool
    ensures { result ≡ is_empty (word_items text.now) }
{
    text.iter().all(|byte| *byte == b' ')
}

/// How many rules a separator gives.
fn separator_count(nonempty: bool, word: &[u8]) -> usize
    ensures count { (cat : CatName)
        → result ≡ length (separator_rules nonempty cat (word_items word.now)) }
    ensures few { result ≤ 3 }
{
    if nonempty || is_wordless(word) { 2 } else { 3 }
}

/// How many rules the definition gives.
fn def_rule_count(def: &Def) -> usize
    ensures count { result ≡ length (rules_of_def def.now) }
    ensures few { result ≤ 65536 }
{
    match def {
        Def::Rule(_) => 1,
        Def::Terminator { .. } => 2,
        Def::Separator { nonempty, word, .. } => separator_count(*nonempty, word.as_slice()),
        Def::Coercions { levels, .. } => *levels as usize + 1,
        Def::Internal(_) => 0,
        Def::Entry(_) => 0,
        Def::Token { .. } => 0,
        Def::LineComment(_) => 0,
        Def::BlockComment(_, _) => 0,
    }
}

/// How many rules the definitions give.
fn rule_count(defs: &[Def]) -> usize
    requires { size_of defs.now ≤ 32768 }
    ensures { result ≡ length (rules_of defs.now) }
{
    let mut count = 0;
    for def in defs {
        count += def_rule_count(def);
    }
    count
}

/// Tells how many rules the definitions give, if they are more than 1,024. It takes no memory.
pub(crate) fn check_count(defs: &[Def]) -> Result<(), GrammarFault>
    requires { size_of defs.now ≤ 32768 }
    ensures { ChecksWithoutMemory (λ done. HasFewRules defs.now) (AtCount defs.now) result }
{
    let count = rule_count(defs);
    if count > MAX_RULES {
        let count = count as u64;
        return Err(GrammarFault::TooManyRules { count });
    }
    Ok(())
}
