//! What the calls of a session answer.

use std::alloc::AllocError;
use text_store::EditFault;

/// A version that was made.
#[derive(Clone, Copy, Debug, PartialEq, Eq)]
pub struct Opened {
    /// Its number: 0 where the text was opened, and one more with each edit.
    pub number: u64,
    /// How many tokens its text has, stray ones among them.
    pub tokens: u32,
}

/// Why a text is not opened, or not edited, in the order of the checks.
#[derive(Clone, Copy, Debug, PartialEq, Eq)]
pub enum Refusal {
    /// No text is open. Opening one never answers it.
    Closed,
    /// A text is open. Editing it never answers it.
    Open,
    /// What an edit deletes ends behind the text, which has so many bytes. Opening a text never
    /// answers it.
    Range { len: u32 },
    /// The bytes stop being UTF-8 at this one of the text, or of the edited text, or an edit cuts a
    /// scalar there.
    Utf8 { at: u64 },
    /// The text would have more than 1,048,576 bytes, or more than 16,384 tokens.
    Full,
}

/// Why there is no new version.
#[derive(Clone, Copy, Debug, PartialEq, Eq)]
pub enum SessionFault {
    /// Memory ran out.
    Memory,
    /// The text or the edit is refused.
    Refused(Refusal),
}

impl From<EditFault> for SessionFault {
    ghost use Rattle.std.specs.Prelude.{◌≡◌};
    ghost use Rattle.chart_service.specs.Texts.{session_fault};

    ghost from_gives = { λ fault given. given ≡ session_fault fault };

    fn from(fault: EditFault) -> SessionFault {
        match fault {
            EditFault::Memory => SessionFault::Memory,
            EditFault::Range { len } => SessionFault::Refused(Refusal::Range { len }),
            EditFault::FullText { .. } => SessionFault::Refused(Refusal::Full),
            EditFault::NotUtf8 { at } => SessionFault::Refused(Refusal::Utf8 { at }),
            EditFault::FullTokens => SessionFault::Refused(Refusal::Full),
        }
    }
}

impl From<AllocError> for SessionFault {
    ghost use Rattle.std.specs.Prelude.{◌≡◌};
    ghost use Rattle.chart_service.specs.declared.outcomes.SessionFault.TheVariants.{Memory};

    ghost from_gives = { λ _ fault. fault ≡ Memory };

    fn from(_error: AllocError) -> SessionFault {
        SessionFault::Memory
    }
}

/// Why a question has no reply, or not a whole one.
#[derive(Clone, Copy, Debug, PartialEq, Eq)]
pub enum AskFault {
    /// Memory ran out, here or in the sink.
    Memory,
    /// The sink failed.
    Write,
}
