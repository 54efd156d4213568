//! Why a call that reads or writes all of its bytes failed.

/// Why a read of a line or a block, or a write of all bytes, failed.
#[derive(Clone, Copy, Debug, PartialEq, Eq)]
pub enum IoFault {
    /// The source failed, and counted it.
    Read,
    /// The sink failed, and counted it.
    Write,
    /// There was no memory for the bytes of a block, or the sink had none.
    Memory,
}
