//! That grammars may cross threads.
ghost use Rattle.std.specs.Thread.{IsSend, IsSync};
ghost use Rattle.numbered_grammar.specs.contracts.grammar.Grammar.{the_row};

use crate::Grammar;

/// What may go to another thread, and be shared by threads.
fn crosses_threads<T: Send + Sync>()
    ensures send { IsSend T.row }
    ensures sync { IsSync T.row }
{}

/// A grammar may go to another thread, and threads may share one.
pub fn grammars_cross_threads()
    ensures send { IsSend the_row }
    ensures sync { IsSync the_row }
{
    crosses_threads::<Grammar>();
}
