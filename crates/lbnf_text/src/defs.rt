//! The definitions of a grammar file.
ghost use Rattle.std.specs.Prelude.{◌≡◌, All};
ghost use Rattle.spec_lbnf.specs.Differences.{IsProper};
ghost use Rattle.spec_lbnf.specs.Limits.{AreFewAndSmall};

use spec_lbnf::Def;
use std::marker::Model;

/// The definitions of a grammar file, in file order, seen as their list. Only `read_defs` makes
/// one.
#[derive(Debug, Drop)]
pub struct Defs {
    list: Vec<Def>,
}

impl Model for Defs {
    ghost use Rattle.std.specs.Coded.{codes};
    ghost use Rattle.std.specs.Prelude.{List, All};
    ghost use Rattle.spec_lbnf.specs.Differences.{IsProper};
    ghost use Rattle.spec_lbnf.specs.Limits.{AreFewAndSmall};
    ghost use Rattle.spec_lbnf.specs.declared.definition.Def.{Def};
    ghost use Rattle.spec_lexing.specs.contracts.expression.Expr as expr;

    ghost Value = { List Def };

    ghost coded = { Prim.hlevel (codes, expr.the_row.coded) };

    ghost view = { λ defs. defs.list.items };

    ghost invariant = { λ defs. AreFewAndSmall defs.list.items × All IsProper defs.list.items };
}

impl Defs {
    pub(crate) fn of(list: Vec<Def>) -> Defs
        requires within { AreFewAndSmall list.items }
        requires proper { All IsProper list.items }
        ensures { result ≡ list.items }
    {
        Defs { list }
    }

    /// The definitions, in file order. Each token expression is sound, and no comment has an empty
    /// text. It takes no memory.
    pub fn as_slice(&self) -> &[Def]
        ensures list { result.now ≡ self.now }
        ensures within { AreFewAndSmall self.now }
        ensures proper { All IsProper self.now }
    {
        self.list.as_slice()
    }
}
