// The formulas of a row that say that the path admits it.
ghost use Rattle.std.specs.Prelude.{◌≡◌, ◌↔◌, ◌<◌, ◌≤◌, ℕ, ℤ, pos, length, IfOk};
ghost use Rattle.claims.specs.Columns.{run_of};
ghost use Rattle.claims.specs.Subjects.{part};
ghost use Rattle.clause_form.specs.Formulas.{AreTrueAt, CanTake, EachComparison};
ghost use Rattle.path_server.specs.Claims.{rule_claims};
ghost use Rattle.path_server.specs.Limits.{IsPath, IsSetting};
ghost use Rattle.path_server.specs.RowClaims.{claims_of_rule, row_claims};
ghost use Rattle.path_server.specs.Rules.{RowHolds};
ghost use Rattle.path_server.specs.Servers.{server_of};
ghost use Rattle.run_rows.specs.Columns.{entries_of, rows_of, value_at};
ghost use Rattle.run_rows.specs.Limits.{IsWithin};
ghost use Rattle.run_rows.specs.Runs.{Shaped};
ghost use Rattle.run_rows.specs.declared.rows.Run.{Run};
ghost use Rattle.unroll.specs.ClaimFormulas.{Adds, claim_formulas, trees};
ghost use Rattle.unroll.specs.Shapes.{IsShapeOf};

use crate::{flow_rules, server_rules};
use clause_form::Formula;
use path_server::{Path, PathRule, Setting};
use run_rows::Shape;
use std::alloc::Global;
use whole::NoMemory;

/// The formulas that the path's rules make of a row, 0 to the last of the shape: by rules, in a rule by flows, each
/// comparison of a rule by itself. The shape is one of the setting's.
pub fn path_row(
    alloc: Global,
    setting: &Setting,
    shape: &Shape,
    row: u32,
) -> Result<Vec<Formula>, NoMemory>
    requires setting_in { IsSetting setting.now }
    requires shape_in { IsShapeOf setting.now shape.now }
    requires row_in { row < rows_of shape.now }
    ensures exact { IfOk result (λ fs. trees fs.items ≡ claim_formulas shape.now (row_claims part shape.now.flows (server_of setting.now.path) row)) }

    // At any values of the columns they are all true exactly where every rule holds at that row of the run of these values.
    ensures made { IfOk result (λ fs. (value : ℕ → ℤ) (over : ℕ) → AreTrueAt value over (trees fs.items) ↔ RowHolds (server_of setting.now.path) (run_of shape.now value (pos over)) row) }

    // At the values of a run of the shape they are all true exactly where every rule holds at that row of the run.
    ensures read { IfOk result (λ fs. (run : Run) (over : ℕ) → Shaped shape.now run → run.over ≡ pos over → AreTrueAt (value_at shape.now run) over (trees fs.items) ↔ RowHolds (server_of setting.now.path) run row) }

    // They can be turned into clauses.
    ensures small { IfOk result (λ fs. EachComparison (CanTake (length (entries_of shape.now))) (trees fs.items)) }
{
    row_formulas(alloc, shape, &setting.path, row)
}

/// The rules in their order.
fn row_formulas(
    alloc: Global,
    shape: &Shape,
    path: &Path,
    row: u32,
) -> Result<Vec<Formula>, NoMemory>
    requires within { IsWithin shape.now }
    requires path_in { IsPath path.now }
    requires row_in { row < rows_of shape.now }
    ensures { IfOk result (λ fs. trees fs.items ≡ claim_formulas shape.now (row_claims part shape.now.flows (server_of path.now) row)) }
{
    let mut formulas = Vec::new(alloc);
    for rule in PathRule::ALL {
        formulas = with_rule(alloc, formulas, shape, path, rule, row)?;
    }
    Ok(formulas)
}

/// A rule at a row: for the path as a whole, then for each flow.
fn with_rule(
    alloc: Global,
    formulas: Vec<Formula>,
    shape: &Shape,
    path: &Path,
    rule: PathRule,
    row: u32,
) -> Result<Vec<Formula>, NoMemory>
    requires within { IsWithin shape.now }
    requires path_in { IsPath path.now }
    requires row_in { row < rows_of shape.now }
    ensures { IfOk result (λ fs. Adds shape.now formulas.items (claims_of_rule part shape.now.flows (server_of path.now) row rule) fs.items) }
{
    let mut formulas = formulas;
    for flow in 0..shape.flows + 1 {
        formulas = with_place(alloc, formulas, shape, path, rule, row, flow)?;
    }
    Ok(formulas)
}

/// A rule at a row for a flow or, under flow 0, for the path as a whole.
fn with_place(
    alloc: Global,
    formulas: Vec<Formula>,
    shape: &Shape,
    path: &Path,
    rule: PathRule,
    row: u32,
    flow: u32,
) -> Result<Vec<Formula>, NoMemory>
    requires within { IsWithin shape.now }
    requires path_in { IsPath path.now }
    requires row_in { row < rows_of shape.now }
    requires flow_in { flow ≤ shape.now.flows }
    ensures { IfOk result (λ fs. Adds shape.now formulas.items (rule_claims part shape.now.flows (server_of path.now) rule row flow) fs.items) }
{
    match rule {
        PathRule::Start => flow_rules::start(alloc, formulas, shape, row, flow),
        PathRule::Growth => flow_rules::growth(alloc, formulas, shape, row, flow),
        PathRule::Service => flow_rules::service(alloc, formulas, shape, row, flow),
        PathRule::Ceiling => server_rules::ceiling(alloc, formulas, shape, path, row, flow),
        PathRule::Floor => server_rules::floor(alloc, formulas, shape, path, row, flow),
        PathRule::Waste => server_rules::waste(alloc, formulas, shape, path, row, flow),
        PathRule::Acceptance => flow_rules::acceptance(alloc, formulas, shape, row, flow),
        PathRule::Buffer => server_rules::buffer(alloc, formulas, shape, path, row, flow),
        PathRule::Loss => server_rules::loss(alloc, formulas, shape, path, row, flow),
        PathRule::WasteRate => server_rules::waste_rate(alloc, formulas, shape, path, row, flow),
    }
}
