//! Why a session ends before the line `end`.

use crate::accepting::LanguageFault;
use cyk_io::IoFault;
use script_reader::Stop;

/// Why a session ends before the line `end`.
#[derive(Drop)]
pub(crate) enum EarlyEnd {
    /// The grammar is refused.
    Refused(LanguageFault),
    /// The script is broken, or there was a fault.
    Stopped(Stop),
}

impl From<Stop> for EarlyEnd {
    ghost use Rattle.std.specs.Prelude.{◌≡◌};
    ghost use Rattle.chart_service.specs.declared.ending.EarlyEnd.TheVariants.{Stopped};

    ghost from_gives = { λ stop early. early ≡ Stopped stop };

    fn from(stop: Stop) -> EarlyEnd {
        EarlyEnd::Stopped(stop)
    }
}

impl From<IoFault> for EarlyEnd {
    ghost use Rattle.std.specs.Prelude.{◌≡◌};
    ghost use Rattle.script_reader.specs.declared.stop.Stop.TheVariants.{Fault};
    ghost use Rattle.chart_service.specs.declared.ending.EarlyEnd.TheVariants.{Stopped};

    ghost from_gives = { λ fault early. early ≡ Stopped (Fault fault) };

    fn from(fault: IoFault) -> EarlyEnd {
        EarlyEnd::Stopped(Stop::Fault(fault))
    }
}
