use crate::scales::PathScales;
use crate::settings::Path;
use crate::{flow_rules, server_rules};
use run_rows::Run;
use whole::Stuck;

/// The rules that a path keeps, in the order in which a row is examined.
#[derive(Clone, Copy, Debug, PartialEq, Eq)]
pub enum PathRule {
    /// `P0`: at first nothing was served, lost or wasted, and neither arrivals nor the credit are below 0.
    Start,
    /// `P1`: nothing that is counted falls.
    Growth,
    /// `P2`: what is served arrived and wasn't lost.
    Service,
    /// `P3`: the server serves at most its rate, its credit added and its waste taken off.
    Ceiling,
    /// `P4`: the server serves at least that much, but for the jitter.
    Floor,
    /// `P5`: the server wastes only where nothing waits.
    Waste,
    /// `P6`: what arrived and wasn't lost doesn't fall.
    Acceptance,
    /// `P7`: what waits fits the buffer.
    Buffer,
    /// `P8`: a loss needs a buffer that is full.
    Loss,
    /// `P9`: the server wastes at most its rate in a step.
    WasteRate,
}

impl PathRule {
    /// All rules, in their order.
    pub const ALL: [PathRule; 10] = [
        PathRule::Start,
        PathRule::Growth,
        PathRule::Service,
        PathRule::Ceiling,
        PathRule::Floor,
        PathRule::Waste,
        PathRule::Acceptance,
        PathRule::Buffer,
        PathRule::Loss,
        PathRule::WasteRate,
    ];
}

impl PathRule {
    ghost use Rattle.std.specs.Prelude.{◌≡◌, ◌<◌, ◌≤◌, length};
    ghost use Rattle.run_rows.specs.Runs.{IsRun, flow_count};
    ghost use Rattle.weighing.specs.Claim.{outcome};
    ghost use Rattle.path_server.specs.Claims.{claim_of};
    ghost use Rattle.path_server.specs.Limits.{IsPath};
    ghost use Rattle.path_server.specs.Places.{number};
    ghost use Rattle.path_server.specs.Scales.{AreScales};

    /// The number that names the rule, 0 to 9.
    pub fn number(self) -> u8
        ensures { result ≡ number self }
    {
        match self {
            PathRule::Start => 0,
            PathRule::Growth => 1,
            PathRule::Service => 2,
            PathRule::Ceiling => 3,
            PathRule::Floor => 4,
            PathRule::Waste => 5,
            PathRule::Acceptance => 6,
            PathRule::Buffer => 7,
            PathRule::Loss => 8,
            PathRule::WasteRate => 9,
        }
    }

    /// Whether the rule holds at a row for a flow or, under flow 0, for the path as a whole, or the first
    /// operation that overflows in weighing its comparisons there.
    pub(crate) fn outcome(
        self,
        path: &Path,
        scales: &PathScales,
        run: &Run,
        row: u32,
        flow: u32,
    ) -> Result<bool, Stuck>
        requires path_in { IsPath path.now }
        requires scales_in { AreScales path.now scales.now }
        requires run_in { IsRun run.now }
        requires row_in { row < length run.now.rows }
        requires flow_in { flow ≤ flow_count run.now 0 }
        ensures { result ≡ outcome row (claim_of path.now run.now self row flow) }
    {
        match self {
            PathRule::Start => flow_rules::start(run, row, flow),
            PathRule::Growth => flow_rules::growth(run, row, flow),
            PathRule::Service => flow_rules::service(run, row, flow),
            PathRule::Ceiling => server_rules::ceiling(path, scales, run, row, flow),
            PathRule::Floor => server_rules::floor(path, scales, run, row, flow),
            PathRule::Waste => server_rules::waste(path, scales, run, row, flow),
            PathRule::Acceptance => flow_rules::acceptance(run, row, flow),
            PathRule::Buffer => server_rules::buffer(path, scales, run, row, flow),
            PathRule::Loss => server_rules::loss(path, scales, run, row, flow),
            PathRule::WasteRate => server_rules::waste_rate(path, scales, run, row, flow),
        }
    }
}
