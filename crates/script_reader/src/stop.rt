//! Why the reading of a script stops.
use cyk_io::IoFault;

/// Why the reading of a script stops. Offsets are in bytes from the start of the input.
#[derive(Clone, Copy, Debug, PartialEq, Eq)]
pub enum Stop {
    /// The script is broken. It names the place: the first byte of a line that has more than 256
    /// bytes, begins at 2^48 or later, is none of the forms or is out of its place; another byte in
    /// the place of a block's LF; or the input's length, where the input ends before that.
    Breaks(u64),
    /// The source failed, or there was no memory for a block.
    Fault(IoFault),
}

impl From<IoFault> for Stop {
    ghost use Rattle.std.specs.Prelude.{◌≡◌};
    ghost use Rattle.script_reader.specs.declared.stop.Stop.TheVariants.{Fault};

    ghost from_gives = { λ fault stop. stop ≡ Fault fault };

    fn from(fault: IoFault) -> Stop {
        Stop::Fault(fault)
    }
}
