ghost use Rattle.std.specs.Prelude.{◌≡◌, ℕ, ◌<◌, ◌≤◌, List, None, length};

use crate::ports::{PutFault, Sink};
use crate::streams::write_whole;
use std::io;

/// The standard output. It doesn't tell the text that it got.
#[derive(Drop)]
pub struct RealSink<'a, R: Print> {
    rt: &'a R,
    faults: u64,
}

impl<'a, R: Print> RealSink<'a, R> {
    ghost use Rattle.ccac_ports.specs.RealSink.{faults};

    /// The output that the runtime prints to.
    pub fn new(rt: &'a R) -> RealSink<'a, R>
        ensures { faults result ≡ 0 }
    {
        RealSink { rt, faults: 0 }
    }
}

impl<'a, R: Print> Sink for RealSink<'a, R> {
    ghost use Rattle.std.specs.Prelude.{None};
    ghost use Rattle.ccac_ports.specs.RealSink.{faults};

    ghost got = { λ sink. record { text = None; faults = faults sink } };

    fn put(&mut self, bytes: &[u8]) -> Result<(), PutFault> {
        let mut output = io::writer(self.rt);
        match write_whole(&mut output, bytes) {
            Ok(()) => Ok(()),
            Err(fault) => {
                self.faults = self.faults.saturating_add(1);
                Err(fault)
            }
        }
    }
}
