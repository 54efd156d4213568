//! The options of a run whose words give none.
ghost use Rattle.std.specs.Prelude.{◌≡◌};
ghost use Rattle.chart_service.specs.Serving.{AreAllowed};
ghost use Rattle.lbnfchart.specs.TopCall.{default_options};

use chart_service::Options;

/// The options of a run whose words give none.
pub fn default_options() -> Options
    ensures ok { result ≡ default_options }
    ensures fits { AreAllowed result }
{
    Options {
        workers: 1,
        readers: 2,
        rounds: 10,
        grain: 64,
        seed: 0,
        tokens: 160,
    }
}
