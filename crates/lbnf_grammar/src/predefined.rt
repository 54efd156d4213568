//! The predefined kinds of token, and which of them are active.
ghost use Rattle.std.specs.Prelude.{◌≡◌, [], ◌∷◌, ◌++◌, map, filter, cond, IfOk, OnOk};
ghost use Rattle.spec_lexing.specs.declared.expression.Expr.TheVariants.{AnyOf};
ghost use Rattle.spec_lexing.specs.Predefined.{integer_expr, exponent_expr, double_expr};
ghost use Rattle.spec_lexing.specs.Predefined.{ident_part_expr, ident_expr, escape_expr};
ghost use Rattle.spec_lexing.specs.Predefined.{string_expr, char_literal_expr, predefined_kinds};
ghost use Rattle.spec_lbnf.specs.Expansion.{kind_names, active_kinds};
ghost use Rattle.lbnf_grammar.specs.Checking.{used_names};
ghost use Rattle.lbnf_grammar.specs.PredefinedKinds.{predefined_name, predefined_expr};
ghost use Rattle.lbnf_grammar.specs.PredefinedKinds.{predefined_token, inside_of};
ghost use Rattle.lbnf_grammar.specs.PredefinedKinds.{is_free_use};

use crate::expanded_def::ExpandedDef;
use crate::names::Names;
use crate::naming::add_token_names;
use crate::texts::name_of;
use spec_lexing::{Class, Expr};
use sqlite_items::{Boxed, Items};
use std::alloc::{AllocError, Global};

/// A predefined kind of token.
#[derive(Clone, Copy, Debug, PartialEq, Eq)]
pub(crate) enum Predefined {
    Integer,
    Double,
    Ident,
    String,
    Char,
}

/// Digits, one or more.
fn digits(alloc: Global) -> Result<Expr, AllocError>
    ensures { IfOk result (λ expr. expr ≡ integer_expr) }
{
    Ok(Expr::Plus(Boxed::new(alloc, Expr::Class(Class::Digit))?))
}

/// One of the scalars of the text.
fn any_of(alloc: Global, text: &str) -> Result<Expr, AllocError>
    ensures { IfOk result (λ expr. expr ≡ AnyOf text.now) }
{
    let name = name_of(String::from_str(alloc, text)?);
    Ok(Expr::AnyOf(name))
}

fn exponent(alloc: Global) -> Result<Expr, AllocError>
    ensures { IfOk result (λ expr. expr ≡ exponent_expr) }
{
    let sign = Expr::Opt(Boxed::new(alloc, Expr::Scalar('-'))?);
    let parts = vec![in alloc; Expr::Scalar('e'), sign, digits(alloc)?]?;
    let power = Expr::Seq(Items::from_vec(parts));
    Ok(Expr::Opt(Boxed::new(alloc, power)?))
}

fn double(alloc: Global) -> Result<Expr, AllocError>
    ensures { IfOk result (λ expr. expr ≡ double_expr) }
{
    let front = digits(alloc)?;
    let behind = digits(alloc)?;
    let exponent = exponent(alloc)?;
    let parts = vec![in alloc; front, Expr::Scalar('.'), behind, exponent]?;
    Ok(Expr::Seq(Items::from_vec(parts)))
}

/// A letter, a digit, `_` or `'`.
fn ident_part(alloc: Global) -> Result<Expr, AllocError>
    ensures { IfOk result (λ expr. expr ≡ ident_part_expr) }
{
    let letter = Expr::Class(Class::Letter);
    let digit = Expr::Class(Class::Digit);
    let parts = vec![in alloc; letter, digit, Expr::Scalar('_'), Expr::Scalar('\'')]?;
    Ok(Expr::Alt(Items::from_vec(parts)))
}

fn ident(alloc: Global) -> Result<Expr, AllocError>
    ensures { IfOk result (λ expr. expr ≡ ident_expr) }
{
    let rest = Expr::Star(Boxed::new(alloc, ident_part(alloc)?)?);
    let parts = vec![in alloc; Expr::Class(Class::Letter), rest]?;
    Ok(Expr::Seq(Items::from_vec(parts)))
}

fn escape(alloc: Global) -> Result<Expr, AllocError>
    ensures { IfOk result (λ expr. expr ≡ escape_expr) }
{
    let escaped = any_of(alloc, "\"'\\nt")?;
    let parts = vec![in alloc; Expr::Scalar('\\'), escaped]?;
    Ok(Expr::Seq(Items::from_vec(parts)))
}

/// Any scalar but those of the text, or an escape.
fn inside(alloc: Global, text: &str) -> Result<Expr, AllocError>
    ensures { IfOk result (λ expr. expr ≡ inside_of text.now) }
{
    let any = Boxed::new(alloc, Expr::Class(Class::AnyChar))?;
    let plain = Expr::Minus(any, Boxed::new(alloc, any_of(alloc, text)?)?);
    let parts = vec![in alloc; plain, escape(alloc)?]?;
    Ok(Expr::Alt(Items::from_vec(parts)))
}

fn string(alloc: Global) -> Result<Expr, AllocError>
    ensures { IfOk result (λ expr. expr ≡ string_expr) }
{
    let inside = Expr::Star(Boxed::new(alloc, inside(alloc, "\"\\")?)?);
    let parts = vec![in alloc; Expr::Scalar('"'), inside, Expr::Scalar('"')]?;
    Ok(Expr::Seq(Items::from_vec(parts)))
}

fn char_literal(alloc: Global) -> Result<Expr, AllocError>
    ensures { IfOk result (λ expr. expr ≡ char_literal_expr) }
{
    let inside = inside(alloc, "'\\")?;
    let parts = vec![in alloc; Expr::Scalar('\''), inside, Expr::Scalar('\'')]?;
    Ok(Expr::Seq(Items::from_vec(parts)))
}

impl Predefined {
    /// The name of the kind.
    pub(crate) fn name(self) -> &'static str
        ensures { result.now ≡ predefined_name self }
    {
        match self {
            Predefined::Integer => "Integer",
            Predefined::Double => "Double",
            Predefined::Ident => "Ident",
            Predefined::String => "String",
            Predefined::Char => "Char",
        }
    }

    /// What the kind matches.
    pub(crate) fn expr(self, alloc: Global) -> Result<Expr, AllocError>
        ensures { IfOk result (λ expr. expr ≡ predefined_expr self) }
    {
        match self {
            Predefined::Integer => digits(alloc),
            Predefined::Double => double(alloc),
            Predefined::Ident => ident(alloc),
            Predefined::String => string(alloc),
            Predefined::Char => char_literal(alloc),
        }
    }
}

/// Adds the kind, if its name is used and not taken.
fn add_if_active(
    active: &mut Vec<Predefined>,
    kind: Predefined,
    used: &Names,
    taken: &Names,
) -> Result<(), AllocError>
    ensures { OnOk result (active.new.items ≡ active.old.items
        ++ cond (is_free_use used.now taken.now (predefined_name kind)) (kind ∷ []) []) }
{
    if used.has(kind.name()) && !taken.has(kind.name()) {
        active.push(kind)?;
    }
    Ok(())
}

/// Those of the kinds whose names are used and not taken.
fn active_among(
    alloc: Global,
    kinds: &[Predefined],
    used: &Names,
    taken: &Names,
) -> Result<Vec<Predefined>, AllocError>
    ensures { IfOk result (λ active. active.items
        ≡ filter (λ kind. is_free_use used.now taken.now (predefined_name kind)) kinds.now) }
{
    let mut active = Vec::new(alloc);
    for kind in kinds {
        add_if_active(&mut active, *kind, used, taken)?;
    }
    Ok(active)
}

/// The predefined kinds whose names are used and not taken, in their order.
fn active_by(alloc: Global, used: &Names, taken: &Names) -> Result<Vec<Predefined>, AllocError>
    ensures { IfOk result (λ active. map predefined_token active.items
        ≡ filter (λ kind. is_free_use used.now taken.now kind.0) predefined_kinds) }
{
    let kinds = [
        Predefined::Integer,
        Predefined::Double,
        Predefined::Ident,
        Predefined::String,
        Predefined::Char,
    ];
    active_among(alloc, &kinds, used, taken)
}

/// The predefined kinds that are active, in their order. The first names are those of kinds that
/// the definitions name.
pub(crate) fn active_kinds(
    alloc: Global,
    defs: &[ExpandedDef<'_>],
    used: &Names,
) -> Result<Vec<Predefined>, AllocError>
    requires { used.now ≡ used_names (kind_names defs.now) defs.now }
    ensures { IfOk result (λ active. map predefined_token active.items ≡ active_kinds defs.now) }
{
    let mut taken = Names::new(alloc);
    add_token_names(alloc, &mut taken, defs)?;
    active_by(alloc, used, &taken)
}
