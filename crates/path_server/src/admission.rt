ghost use Rattle.std.specs.Prelude.{◌≡◌, ◌<◌, ◌≤◌, ◌⊎◌, ℕ, IfErr, length};
ghost use Rattle.whole.specs.declared.answers.Stuck.{Stuck};
ghost use Rattle.run_rows.specs.Runs.{IsRun, flow_count};
ghost use Rattle.path_server.specs.Limits.{IsPath};
ghost use Rattle.path_server.specs.Places.{Finds, IsFirstBroken, IsFirstWide, NothingOverflows, admission, answer, at_place, examined, places, places_of_row, places_of_rule};
ghost use Rattle.path_server.specs.Rules.{Admitted};
ghost use Rattle.path_server.specs.Scales.{AreScales};
ghost use Rattle.weighing.specs.First.{first};

use crate::path_rules::PathRule;
use crate::scales::PathScales;
use crate::settings::Path;
use run_rows::Run;
use whole::Stuck;

/// Whether a path admits a run.
#[derive(Clone, Copy, Debug, PartialEq, Eq)]
pub enum Admit {
    /// Every rule holds at every row.
    Yes,
    /// The first broken rule, 0 to 9, with its row, and its flow or 0.
    Broken { rule: u8, row: u32, flow: u32 },
    /// A comparison came before any broken rule whose exact weighing overflows 128 bits.
    Wide(Stuck),
}

/// Whether the path admits the run: by rows, in a row by rules, in a rule by flows. It takes no memory.
pub fn admits(path: &Path, run: &Run) -> Admit
    requires path_in { IsPath path.now }
    requires run_in { IsRun run.now }
    ensures exact { result ≡ admission path.now run.now }
    ensures admitted { result ≡ Admit.Yes → Admitted path.now run.now }
    ensures weighed { result ≡ Admit.Yes → NothingOverflows path.now run.now }
    ensures complete { Admitted path.now run.now → NothingOverflows path.now run.now → result ≡ Admit.Yes }
    ensures broken { (rule row flow : ℕ) → result ≡ Admit.Broken rule row flow → IsFirstBroken path.now run.now rule row flow }
    ensures broken_found { (rule row flow : ℕ) → IsFirstBroken path.now run.now rule row flow → result ≡ Admit.Broken rule row flow }
    ensures wide { (stuck : Stuck) → result ≡ Admit.Wide stuck → IsFirstWide path.now run.now stuck }
    ensures wide_found { (stuck : Stuck) → IsFirstWide path.now run.now stuck → result ≡ Admit.Wide stuck }

    // A run that the path admits is never found to break a rule.
    ensures admitted_found { Admitted path.now run.now → (result ≡ Admit.Yes) ⊎ ((stuck : Stuck) × (result ≡ Admit.Wide stuck)) }
{
    answer(examine(path, run))
}

/// `Yes` where nothing is found.
fn answer(found: Result<(), Admit>) -> Admit
    ensures { result ≡ answer found }
{
    match found {
        Ok(()) => Admit::Yes,
        Err(stop) => stop,
    }
}

/// The rows in order.
fn examine(path: &Path, run: &Run) -> Result<(), Admit>
    requires path_in { IsPath path.now }
    requires run_in { IsRun run.now }
    ensures { result ≡ first (examined path.now run.now) (places run.now) }
{
    let scales = PathScales::of(path);
    for row in 0..run.row_count() {
        examine_row(path, &scales, run, row)?;
    }
    Ok(())
}

/// The first finding on a row, its rules in their order: `Err` carries the rule that is broken or the weighing that
/// overflows, and never `Admit::Yes`. The row is one of the run's, and the scales are the path's. It takes no memory.
pub fn examine_row(path: &Path, scales: &PathScales, run: &Run, row: u32) -> Result<(), Admit>
    requires path_in { IsPath path.now }
    requires scales_in { AreScales path.now scales.now }
    requires run_in { IsRun run.now }
    requires row_in { row < length run.now.rows }
    ensures exact { result ≡ first (examined path.now run.now) (places_of_row run.now row) }
    ensures means { Finds path.now run.now (places_of_row run.now row) result }
    ensures stops { IfErr result (λ stop. stop ≡ Admit.Yes → ⊥) }
{
    for rule in PathRule::ALL {
        examine_rule(path, scales, run, rule, row)?;
    }
    Ok(())
}

/// A rule at a row: for the path as a whole, then for each flow.
fn examine_rule(
    path: &Path,
    scales: &PathScales,
    run: &Run,
    rule: PathRule,
    row: u32,
) -> Result<(), Admit>
    requires path_in { IsPath path.now }
    requires scales_in { AreScales path.now scales.now }
    requires run_in { IsRun run.now }
    requires row_in { row < length run.now.rows }
    ensures { result ≡ first (examined path.now run.now) (places_of_rule run.now row rule) }
{
    for flow in 0..run.flow_count() + 1 {
        examine_place(path, scales, run, rule, row, flow)?;
    }
    Ok(())
}

/// A rule at a row for a flow or, under flow 0, for the path as a whole.
#[tactic(auto, unfolding(crate::specs::Places::examined))]
fn examine_place(
    path: &Path,
    scales: &PathScales,
    run: &Run,
    rule: PathRule,
    row: u32,
    flow: u32,
) -> Result<(), Admit>
    requires path_in { IsPath path.now }
    requires scales_in { AreScales path.now scales.now }
    requires run_in { IsRun run.now }
    requires row_in { row < length run.now.rows }
    requires flow_in { flow ≤ flow_count run.now 0 }
    ensures { result ≡ examined path.now run.now (at_place row rule flow) }
{
    match rule.outcome(path, scales, run, row, flow) {
        Ok(true) => Ok(()),
        Ok(false) => Err(Admit::Broken {
            rule: rule.number(),
            row,
            flow,
        }),
        Err(stuck) => Err(Admit::Wide(stuck)),
    }
}
