//! Definitions, each with the rules that it gives.
ghost use Rattle.std.specs.Prelude.{◌≡◌, IfOk, All};
ghost use Rattle.spec_lbnf.specs.Limits.{IsSmall};
ghost use Rattle.spec_lbnf.specs.Expansion.{rules_of_def};

use crate::macros::made_rules;
use spec_lbnf::{Def, RawRule};
use std::alloc::{AllocError, Global};
use std::marker::Model;
use std::slice::from_ref;

/// A definition with the rules that it gives, seen as the definition.
#[derive(Drop)]
pub(crate) struct ExpandedDef<'a> {
    def: &'a Def,
    /// The rules, where the definition is no rule itself.
    made: Vec<RawRule>,
}

impl<'a> Model for ExpandedDef<'a> {
    ghost use Rattle.std.specs.Prelude.{◌≡◌};
    ghost use Rattle.spec_lbnf.specs.declared.definition.Def.{Def};
    ghost use Rattle.lbnf_grammar.specs.MadeRules.{made_rules};
    ghost use Rattle.std.specs.Coded.{codes};
    ghost use Rattle.spec_lexing.specs.contracts.expression.Expr as expr;

    ghost Value = { Def };

    ghost coded = { Prim.hlevel (codes, expr.the_row.coded) };

    ghost view = { λ expanded. expanded.def.now };

    ghost invariant = { λ expanded. expanded.made.items ≡ made_rules expanded.def.now };
}

impl<'a> ExpandedDef<'a> {
    /// The definition with its rules, which are made if it is no rule itself.
    fn of(alloc: Global, def: &'a Def) -> Result<ExpandedDef<'a>, AllocError>
        requires { IsSmall def.now }
        ensures { IfOk result (λ expanded. expanded ≡ def.now) }
    {
        let made = made_rules(alloc, def)?;
        Ok(ExpandedDef { def, made })
    }

    /// The definition.
    pub(crate) fn def(&self) -> &Def
        ensures { result.now ≡ self.now }
    {
        self.def
    }

    /// The rules that the definition gives, in order.
    pub(crate) fn rules(&self) -> &[RawRule]
        ensures { result.now ≡ rules_of_def self.now }
    {
        if let Def::Rule(rule) = self.def {
            return from_ref(rule);
        }
        self.made.as_slice()
    }
}

/// The definitions with the rules that they give. No rule that is written is copied.
pub(crate) fn expanded_defs(alloc: Global, defs: &[Def]) -> Result<Vec<ExpandedDef<'_>>, AllocError>
    requires { All IsSmall defs.now }
    ensures { IfOk result (λ expanded. expanded.items ≡ defs.now) }
{
    let mut expanded = Vec::with_capacity(alloc, defs.len())?;
    for def in defs {
        expanded.push(ExpandedDef::of(alloc, def)?)?;
    }
    Ok(expanded)
}
