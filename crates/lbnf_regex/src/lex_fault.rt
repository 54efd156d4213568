//! Why there is no automaton.
use std::alloc::AllocError;

/// Why there is no automaton.
#[derive(Debug, Drop)]
pub enum LexFault {
    /// Memory ran out.
    Memory,
    /// There are more states than an automaton may have, its start included.
    TooManyStates,
}

impl From<AllocError> for LexFault {
    ghost use Rattle.std.specs.Prelude.{◌≡◌};
    ghost use Rattle.lbnf_regex.specs.declared.lex_fault.LexFault.TheVariants.{Memory};

    ghost from_gives = { λ _ fault. fault ≡ Memory };

    fn from(_error: AllocError) -> LexFault {
        LexFault::Memory
    }
}
