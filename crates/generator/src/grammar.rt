//! The grammar of the run, and what it is asked for.
ghost use Rattle.std.specs.Prelude.{◌≡◌};
ghost use Rattle.generator.specs.Generated.{grammar_file, program_name, statement_name};

/// The grammar file of the run: a program is statements, each of which sets a variable.
pub fn grammar_file() -> &'static [u8]
    ensures { result.now ≡ grammar_file }
{
    b"Prog. Prog ::= [Stm] ;
terminator Stm \";\" ;
Let. Stm ::= Ident \"=\" Exp ;
Add. Exp ::= Exp \"+\" Exp1 ;
Sub. Exp ::= Exp \"-\" Exp1 ;
Mul. Exp1 ::= Exp1 \"*\" Exp2 ;
Num. Exp2 ::= Integer ;
coercions Exp 2 ;
"
}

/// The name of the category of the whole text.
pub fn program_name() -> &'static [u8]
    ensures { result.now ≡ program_name }
{
    b"Prog"
}

/// The name of the category of a statement.
pub fn statement_name() -> &'static [u8]
    ensures { result.now ≡ statement_name }
{
    b"Stm"
}
