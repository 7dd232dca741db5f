ghost use Rattle.report_put.specs.Put.{IsPut};

use ccac_ports::{PutFault, Sink};

/// The status of a sink that failed.
const SINK_FAILED: u8 = 6;

/// The status of want of memory.
pub const NO_MEMORY: u8 = 7;

/// Puts the text of a report by one call, and gives the status with which the program ends: the report's own, 6 where the sink
/// failed, 7 where memory ran out.
pub fn put<S: Sink>(status: u8, text: &[u8], out: &mut S) -> u8
    ensures { IsPut status text.now (S.got out.old) (S.got out.new) result }
{
    match out.put(text) {
        Ok(()) => status,
        Err(PutFault::Failed) => SINK_FAILED,
        Err(PutFault::NoMemory) => NO_MEMORY,
    }
}
