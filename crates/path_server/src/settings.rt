ghost use Rattle.std.specs.Prelude.{◌≡◌, ◌≤◌};
ghost use Rattle.path_server.specs.Limits.{IsSetting};
ghost use Rattle.path_server.specs.Shapes.{shape_of};

use run_rows::Shape;
use whole::Pair;

/// What a path is: a server with a rate, a jitter, and perhaps a buffer.
#[derive(Clone, Copy, Debug)]
pub struct Path {
    /// What the server can serve in one step, above 0.
    pub rate: Pair,
    /// By how many steps service may be late, 0 to 8.
    pub jitter: u32,
    /// How much may wait at the server; without one, nothing is lost.
    pub buffer: Option<Pair>,
}

/// What a question says of the runs that it asks about.
#[derive(Clone, Copy, Debug)]
pub struct Setting {
    /// 1 to 4.
    pub flows: u32,
    /// How many controlled rows a run has, 1 to 32.
    pub steps: u32,
    /// After how many steps a flow hears of what the path did, 1 to 8.
    pub rtt: u32,
    pub path: Path,
    /// How many moves a search may make, 1 to 16,777,216.
    pub budget: u64,
}

impl Setting {
    /// The shape of the setting's runs, for a controller with `states` states whose tests of delay reach back
    /// `delay_max` rows. Both are at most 8.
    pub fn shape(&self, states: u32, delay_max: u32) -> Shape
        requires setting { IsSetting self.now }
        requires states_to { states ≤ 8 }
        requires delay_to { delay_max ≤ 8 }
        ensures { result ≡ shape_of self.now states delay_max }
    {
        Shape {
            flows: self.flows,
            states,
            h: self.rtt + delay_max.max(1),
            t: self.steps,
        }
    }
}
