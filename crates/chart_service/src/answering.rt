//! Answers to questions about the spans of a text that is open.
ghost use Rattle.std.specs.Prelude.{◌≡◌, ◌≤◌, ◌↔◌, ℕ, List, length, IsTrue, IfOk, IfSome};
ghost use Rattle.std.specs.Prelude.{MatchOption, string_bytes};
ghost use Rattle.spec_grammar.specs.Grammars.{IsSymbolOf};
ghost use Rattle.spec_grammar.specs.Derivation.{Derives};
ghost use Rattle.spec_lexing.specs.declared.token.Token.{Token};
ghost use Rattle.spec_lexing.specs.Tokens.{kinds_of};
ghost use Rattle.spec_session.specs.Questions.{IsOfSymbol, HasSymbol, first_of, end_of};
ghost use Rattle.spec_session.specs.Questions.{outside_line};
ghost use Rattle.spec_session.specs.TokenAnswers.{span_first, span_end, IsTokensAnswer};
ghost use Rattle.spec_session.specs.Answers.{IsHasAnswer};
ghost use Rattle.script_reader.specs.Forms.{meant, query_of};
ghost use Rattle.valiant.specs.Charts.{IsChartOf};
ghost use Rattle.chart_service.specs.Languages.{CanOpen};
ghost use Rattle.chart_service.specs.Sessions.{IsOpened};
ghost use Rattle.chart_service.specs.Answering.{refusal_line, TellsSpan, has_line, RepliesWith};
ghost use Rattle.chart_service.specs.Answering.{AnswersTree, Answers};

use crate::language::Language;
use crate::reply::Reply;
use crate::token_lines::tokens_line;
use cell_sets::Cell;
use first_tree::{First, first};
use lbnf_grammar::{Grammar, Symbol};
use script_reader::Query;
use spec_lexing::KindDef;
use spec_script::{Constituent, TokenSpan};
use std::alloc::{AllocError, Global};
use text_store::Text;
use valiant::Chart;

/// Why a question on a constituent is refused.
#[derive(Clone, Copy, Debug, PartialEq, Eq)]
enum Refusal {
    /// No symbol has the name, or there is no entry.
    UnknownCategory,
    /// The span is none of the text's, which has so many tokens.
    SpanOutside { tokens: u32 },
}

/// A symbol over the tokens `first..end` of a text.
#[derive(Clone, Copy, Debug, PartialEq, Eq)]
struct SymbolSpan {
    symbol: Symbol,
    first: u32,
    end: u32,
}

/// The symbol of the constituent.
fn symbol_of(grammar: &Grammar, constituent: &Constituent<&[u8]>) -> Option<Symbol>
    ensures own { IfSome result (IsSymbolOf grammar.now) }
    ensures found { MatchOption result (HasSymbol grammar.now (meant constituent.now) → ⊥)
        (IsOfSymbol grammar.now (meant constituent.now)) }
{
    match constituent {
        Constituent::EntryWhole => grammar.entry(),
        Constituent::NamedWhole(name) => grammar.find(name),
        Constituent::NamedSpan { name, .. } => grammar.find(name),
    }
}

/// Whether the symbol derives the span: a span that is not empty by its entry in the chart, an
/// empty one where the symbol is nullable.
fn is_derived<C: Cell>(
    language: &Language<C>,
    chart: &Chart<C>,
    symbol: Symbol,
    first: u32,
    end: u32,
) -> bool
    requires can { CanOpen C.ROOM language.now }
    requires own { IsSymbolOf language.now symbol }
    requires order { first ≤ end }
    requires within { end ≤ length chart.now.kinds }
    ensures { (text : List ℕ) (tokens : List Token)
        → IsOpened language.now chart.now text tokens
        → IsTrue result
        ↔ Derives language.now.rules (kinds_of tokens) symbol first end }
{
    let binary = language.binary();
    let number = binary.symbol_of(symbol);
    if first < end {
        chart.has(number, first, end)
    } else {
        binary.nullable(number)
    }
}

/// The place at which the constituent begins.
fn first_of(constituent: &Constituent<&[u8]>) -> u32
    ensures { result ≡ first_of (meant constituent.now) }
{
    match constituent {
        Constituent::EntryWhole => 0,
        Constituent::NamedWhole(_) => 0,
        Constituent::NamedSpan { first, .. } => *first,
    }
}

/// The place at which it ends, in a text of so many tokens.
fn end_of(constituent: &Constituent<&[u8]>, tokens: u32) -> u32
    ensures { result ≡ end_of tokens (meant constituent.now) }
{
    match constituent {
        Constituent::EntryWhole => tokens,
        Constituent::NamedWhole(_) => tokens,
        Constituent::NamedSpan { end, .. } => *end,
    }
}

/// The symbol of the constituent and its span of a text of so many tokens. The symbol is looked for
/// before the span is.
fn symbol_span_of(
    grammar: &Grammar,
    tokens: u32,
    constituent: &Constituent<&[u8]>,
) -> Result<SymbolSpan, Refusal>
    ensures { TellsSpan grammar.now tokens (meant constituent.now) result }
{
    let Some(symbol) = symbol_of(grammar, constituent) else {
        return Err(Refusal::UnknownCategory);
    };
    let first = first_of(constituent);
    let end = end_of(constituent, tokens);
    if end < first || tokens < end {
        return Err(Refusal::SpanOutside { tokens });
    }
    Ok(SymbolSpan { symbol, first, end })
}

/// The line that refuses a span of a text of so many tokens.
fn outside_line(alloc: Global, tokens: u32) -> Result<String, AllocError>
    ensures { IfOk result (λ text. string_bytes text ≡ outside_line tokens) }
{
    format!(in alloc; "refused span {tokens}\n")
}

/// The line that refuses a question on a constituent.
fn refusal_line(alloc: Global, refusal: Refusal) -> Result<String, AllocError>
    ensures { IfOk result (λ text. string_bytes text ≡ refusal_line refusal) }
{
    match refusal {
        Refusal::UnknownCategory => format!(in alloc; "refused category\n"),
        Refusal::SpanOutside { tokens } => outside_line(alloc, tokens),
    }
}

/// The line that answers whether a constituent is derived.
fn has_line(alloc: Global, is_derived: bool) -> Result<String, AllocError>
    ensures { IfOk result (λ text. string_bytes text ≡ has_line is_derived) }
{
    if is_derived {
        format!(in alloc; "yes\n")
    } else {
        format!(in alloc; "no\n")
    }
}

/// The line that answers whether the constituent is derived.
fn has_answer<C: Cell>(
    alloc: Global,
    language: &Language<C>,
    chart: &Chart<C>,
    constituent: &Constituent<&[u8]>,
) -> Result<String, AllocError>
    requires can { CanOpen C.ROOM language.now }
    ensures { (text : List ℕ) (tokens : List Token)
        → IsOpened language.now chart.now text tokens
        → IfOk result (λ line. IsHasAnswer language.now tokens (meant constituent.now)
        (string_bytes line)) }
{
    match symbol_span_of(language.grammar(), chart.len(), constituent) {
        Ok(asked) => {
            let is = is_derived(language, chart, asked.symbol, asked.first, asked.end);
            has_line(alloc, is)
        }
        Err(refusal) => refusal_line(alloc, refusal),
    }
}

/// The reply that tells what was found of a first tree.
fn tree_reply(alloc: Global, found: First) -> Result<Reply, AllocError>
    ensures { IfOk result (RepliesWith found) }
{
    match found {
        First::Tree(tree) => Ok(Reply::Tree(tree)),
        First::Nothing => Ok(Reply::Line(format!(in alloc; "none\n")?)),
        First::Large => Ok(Reply::Line(format!(in alloc; "refused tree\n")?)),
    }
}

/// The reply to what the constituent's first tree is. It takes memory for the nodes of the tree.
fn tree_answer<C: Cell>(
    alloc: Global,
    language: &Language<C>,
    chart: &Chart<C>,
    constituent: &Constituent<&[u8]>,
) -> Result<Reply, AllocError>
    requires can { CanOpen C.ROOM language.now }
    requires chart { IsChartOf language.now chart.now.kinds chart.now }
    ensures { (text : List ℕ) (tokens : List Token)
        → IsOpened language.now chart.now text tokens
        → IfOk result (AnswersTree language.now text tokens (meant constituent.now)) }
{
    match symbol_span_of(language.grammar(), chart.len(), constituent) {
        Ok(asked) => {
            let found = first(
                alloc,
                chart,
                language.binary(),
                language.grammar(),
                asked.symbol,
                asked.first,
                asked.end,
            )?;
            tree_reply(alloc, found)
        }
        Err(refusal) => Ok(Reply::Line(refusal_line(alloc, refusal)?)),
    }
}

/// The places at which the span begins and ends, in a text of so many tokens.
fn ends_of(span: TokenSpan, tokens: u32) -> (u32, u32)
    ensures first { result.0 ≡ span_first span }
    ensures end { result.1 ≡ span_end tokens span }
{
    match span {
        TokenSpan::Whole => (0, tokens),
        TokenSpan::Span { first, end } => (first, end),
    }
}

/// The line that answers which tokens the span has.
fn tokens_answer(
    alloc: Global,
    kinds: &[KindDef],
    text: &Text,
    span: TokenSpan,
) -> Result<String, AllocError>
    ensures { IfOk result (λ line. IsTokensAnswer kinds.now text.now.bytes text.now.tokens span
        (string_bytes line)) }
{
    let count = text.token_count();
    let (first, end) = ends_of(span, count);
    if end < first || count < end {
        return outside_line(alloc, count);
    }
    tokens_line(alloc, kinds, text, first, end)
}

/// The reply to the query, asked of the text and its chart.
pub(crate) fn answer_to<C: Cell>(
    alloc: Global,
    language: &Language<C>,
    text: &Text,
    chart: &Chart<C>,
    query: &Query<'_>,
) -> Result<Reply, AllocError>
    requires can { CanOpen C.ROOM language.now }
    requires opened { IsOpened language.now chart.now text.now.bytes text.now.tokens }
    ensures { IfOk result (Answers language.now text.now (query_of query.now)) }
{
    match query {
        Query::Has(constituent) => Ok(Reply::Line(has_answer(
            alloc,
            language,
            chart,
            constituent,
        )?)),
        Query::Tree(constituent) => tree_answer(alloc, language, chart, constituent),
        Query::Tokens(span) => {
            let kinds = language.grammar().kinds();
            Ok(Reply::Line(tokens_answer(alloc, kinds, text, *span)?))
        }
    }
}
