ghost use Rattle.file_reports.specs.Ended.{Delivered};
ghost use Rattle.file_reports.specs.Shown.{shown};

use crate::reports::Report;
use ccac_ports::{PutFault, Sink};

/// Puts the report, and gives the status with which the call ends: the report's, or 6 where the sink fails, and 7 where memory runs
/// out.
pub fn deliver<S: Sink>(report: &Report, out: &mut S) -> u8
    ensures { Delivered (shown report.now) (S.got out.old) (S.got out.new) result }
{
    match out.put(report.text.as_slice()) {
        Ok(()) => report.status,
        Err(PutFault::Failed) => 6,
        Err(PutFault::NoMemory) => 7,
    }
}
