//! The top call: what the program does with its words, over any source and sink.
ghost use Rattle.std.specs.Prelude.{◌≡◌};
ghost use Rattle.chart_service.specs.Serving.{IsStatus, WritesSession};
ghost use Rattle.cyk_io.specs.Causes.{HasCause};
ghost use Rattle.lbnfchart.specs.TopCall.{IsServe, WritesUsage};

use crate::defaults::default_options;
use crate::words::is_serve;
use chart_service::serve;
use cyk_io::{IoFault, Sink, Source, write_all_counted};
use std::alloc::Global;
use std::sync::ledger::Ledger;
use step_count::Steps;

const USAGE: &[u8] = b"usage: lbnfchart serve|watch|check|gen [--workers N] [--readers M] \
    [--rounds R] [--grain G] [--seed S] [--tokens N]\n";

fn write_usage<K: Sink>(sink: &mut K) -> u8
    ensures usage { WritesUsage (K.written sink.old) (K.written sink.new) result }
    ensures write { HasCause (K.faults sink.old) (K.faults sink.new) (result ≡ 5) }
{
    match write_all_counted(sink, USAGE) {
        Ok(()) => 1,
        Err(IoFault::Read | IoFault::Write) => 5,
        Err(IoFault::Memory) => 6,
    }
}

/// Runs what the words behind the program's name ask for, and answers the exit status: that of the
/// session where they are the one word `serve`, and else 1, with the usage line on the sink and the
/// source not read. 4 and 5 are faults of the source and of the sink, 6 is want of memory. `joins`
/// is for the joins of charts; no join is counted.
pub fn lbnf_main<S: Source, K: Sink, L: Ledger>(
    alloc: Global,
    words: &[String],
    source: &mut S,
    sink: &mut K,
    joins: &mut Steps<L>,
) -> u8
    ensures usage { (IsServe words.now → ⊥)
        → WritesUsage (K.written sink.old) (K.written sink.new) result }
    ensures kept { (IsServe words.now → ⊥) → source.new ≡ source.old }
    ensures ok { IsServe words.now
        → WritesSession (S.left source.old) (K.written sink.old) (K.written sink.new) result }
    ensures status { IsServe words.now → IsStatus result }
    ensures read { HasCause (S.faults source.old) (S.faults source.new) (result ≡ 4) }
    ensures write { HasCause (K.faults sink.old) (K.faults sink.new) (result ≡ 5) }
    ensures cost { joins.new ≡ joins.old }
{
    if !is_serve(words) {
        return write_usage(sink);
    }
    serve(alloc, &default_options(), source, sink, joins)
}
