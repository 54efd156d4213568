//! Why there is no text.
use std::alloc::AllocError;

/// Why a text is not opened, or not edited, in the order of the checks.
#[derive(Debug, Drop)]
pub enum EditFault {
    /// Memory ran out.
    Memory,
    /// What an edit deletes ends behind the text, which has so many bytes. Opening a text never
    /// answers it.
    Range { len: u32 },
    /// The text would have so many bytes, more than 1,048,576.
    FullText { count: u64 },
    /// The bytes stop being UTF-8 at this one, the first of a sequence that is wrong or cut short.
    NotUtf8 { at: u64 },
    /// The text has more than 16,384 tokens.
    FullTokens,
}

impl From<AllocError> for EditFault {
    ghost use Rattle.std.specs.Prelude.{◌≡◌};
    ghost use Rattle.text_store.specs.declared.fault.EditFault.TheVariants.{Memory};

    ghost from_gives = { λ _ fault. fault ≡ Memory };

    fn from(_error: AllocError) -> EditFault {
        EditFault::Memory
    }
}
