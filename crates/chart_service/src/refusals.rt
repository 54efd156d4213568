//! The line that refuses a grammar, for each fault.
ghost use Rattle.std.specs.Prelude.{◌≡◌, IfOk, Some, string_bytes};
ghost use Rattle.chart_service.specs.Languages.{reason_of, IsRefusal};

use crate::accepting::LanguageFault;
use binary_form::BinaryFault;
use lbnf_grammar::GrammarFault;
use lbnf_regex::LexFault;
use lbnf_text::TextFault;
use std::alloc::{AllocError, Global};

/// Why a grammar is refused, as the line says it. There is none for want of memory.
fn reason(alloc: Global, fault: &LanguageFault) -> Result<String, AllocError>
    ensures { IfOk result (λ text. reason_of fault.now ≡ Some (string_bytes text)) }
{
    use GrammarFault as Unfit;
    use LanguageFault::{Binary, Grammar, Lex, Text};
    match fault {
        LanguageFault::Memory => Err(AllocError),
        Text(TextFault::Memory) => Err(AllocError),
        Text(TextFault::TooLarge { count }) => format!(in alloc; "large {count}"),
        Text(TextFault::NotUtf8 { at }) => format!(in alloc; "utf8 {at}"),
        Text(TextFault::Syntax { at }) => format!(in alloc; "syntax {at}"),
        Text(TextFault::Unsupported { word, at }) => {
            format!(in alloc; "unsupported {} {at}", word.as_str())
        }
        Text(TextFault::BadDifference { at }) => format!(in alloc; "difference {at}"),
        Grammar(Unfit::Memory) => Err(AllocError),
        Grammar(Unfit::BadCoercion { def }) => format!(in alloc; "coercion {def}"),
        Grammar(Unfit::BadList { def }) => format!(in alloc; "list {def}"),
        Grammar(Unfit::TooManyRules { count }) => format!(in alloc; "rules {count}"),
        Grammar(Unfit::RepeatedToken { name }) => format!(in alloc; "token {}", name.as_str()),
        Grammar(Unfit::UnknownCategory { name, def }) => {
            format!(in alloc; "category {} {def}", name.as_str())
        }
        Grammar(Unfit::Cyclic { name }) => format!(in alloc; "cyclic {}", name.as_str()),
        Lex(LexFault::Memory) => Err(AllocError),
        Lex(LexFault::TooManyStates) => format!(in alloc; "states"),
        Binary(BinaryFault::Memory) => Err(AllocError),
        Binary(BinaryFault::TooManySymbols { count }) => format!(in alloc; "symbols {count}"),
    }
}

/// The line that refuses a grammar. There is none for want of memory.
pub(crate) fn refusal_line(alloc: Global, fault: &LanguageFault) -> Result<String, AllocError>
    ensures { IfOk result (λ text. IsRefusal fault.now (string_bytes text)) }
{
    let reason = reason(alloc, fault)?;
    format!(in alloc; "grammar refused {reason}\n")
}
