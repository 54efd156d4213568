//! What keeps parts that fit together from being a grammar.
use spec_text::Name;
use std::alloc::AllocError;

/// Why parts that fit together are no grammar.
#[derive(Debug, Drop)]
pub enum CycleFault {
    /// Memory ran out.
    Memory,
    /// Some category reaches itself by steps: the text of the one of least number.
    Cyclic { name: Name },
}

impl From<AllocError> for CycleFault {
    ghost use Rattle.std.specs.Prelude.{◌≡◌};
    ghost use Rattle.numbered_grammar.specs.declared.fault.CycleFault.TheVariants.{Memory};

    ghost from_gives = { λ _ fault. fault ≡ Memory };

    fn from(_: AllocError) -> CycleFault {
        CycleFault::Memory
    }
}
