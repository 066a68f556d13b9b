ghost use Rattle.ms_io.specs.Sink.{Reports};

use crate::sink::Sink;

/// Puts the text of a report, whose fault shows in the count of the sink alone.
pub fn put_report<E: Sink>(text: &[u8], err: &mut E)
    ensures { Reports text.now (E.taken err.old) (E.faults err.old) (E.taken err.new)
        (E.faults err.new) }
{
    let _ = err.put(text);
}
