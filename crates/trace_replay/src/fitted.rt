//! The rows of a run in the shape of the question's runs, in their order.
ghost use Rattle.std.specs.Prelude.{◌≡◌, ◌<◌, ◌≤◌, ◌++◌, MatchResult, length, map};
ghost use Rattle.weighing.specs.First.{first};
ghost use Rattle.path_server.specs.Places.{places_of_row as rules_of_row};
ghost use Rattle.ctrl_meaning.specs.Limits.{IsControlled};
ghost use Rattle.trace_replay.specs.FittedRuns.{IsFitted, asks_first, found_at};
ghost use Rattle.trace_replay.specs.Replaying.{each_flow, obeys, opens, places_of_flows, places_of_row, places_of_rows, sends, steps};

use crate::replaying::{Replayed, RunRule};
use ctrl_meaning::{OpeningHolds, StepHolds, opening_holds, step_holds};
use ctrl_types::Controller;
use path_server::{Admit, PathScales};
use question_text::Question;
use run_rows::Run;

/// A run in the shape of the question's runs of the controller, with what is the same on all of its rows.
#[derive(Clone, Copy)]
pub(crate) struct FittedRun<'a> {
    pub controller: &'a Controller,
    pub question: &'a Question,
    pub run: &'a Run,
    /// The row on which the flows' states begin.
    pub opening: u32,
    /// Those of the question's path.
    pub scales: PathScales,
}

impl FittedRun<'_> {
    /// The rows in order.
    pub(crate) fn examine_rows(self) -> Result<(), Replayed>
        requires { IsFitted self }
        ensures { result ≡ asks_first self.entry (places_of_rows self.entry.controller.now self.entry.question.now self.entry.run.now) }
    {
        for row in 0..self.run.row_count() {
            self.examine_row(row)?;
        }
        Ok(())
    }

    /// On a row, the rules of the path, and then what the flows do.
    fn examine_row(self, row: u32) -> Result<(), Replayed>
        requires fitted { IsFitted self }
        requires row_in { row < length self.run.now.rows }
        ensures { result ≡ asks_first self.entry (places_of_row self.entry.controller.now self.entry.question.now self.entry.run.now row) }
    {
        self.examine_rules(row)?;
        self.examine_flows(row)
    }

    /// The rules of the path on a row.
    fn examine_rules(self, row: u32) -> Result<(), Replayed>
        requires fitted { IsFitted self }
        requires row_in { row < length self.run.now.rows }
        ensures { result ≡ asks_first self.entry (map obeys (rules_of_row self.entry.run.now row)) }
    {
        let path = &self.question.setting.path;
        match path_server::examine_row(path, &self.scales, self.run, row) {
            Ok(()) => Ok(()),
            Err(Admit::Yes) => unreachable!(),
            Err(Admit::Broken { rule, row, flow }) => Err(broken(RunRule::P(rule), row, flow)),
            Err(Admit::Wide(stuck)) => Err(Replayed::Wide(stuck)),
        }
    }

    /// On the opening row, where the states begin; on a controlled row, the flows' steps.
    fn examine_flows(self, row: u32) -> Result<(), Replayed>
        requires fitted { IsFitted self }
        requires row_in { row < length self.run.now.rows }
        ensures { result ≡ asks_first self.entry (places_of_flows self.entry.opening self.entry.question.now.setting.flows row) }
    {
        if row < self.opening {
            return Ok(());
        }
        if row == self.opening {
            return self.examine_openings();
        }
        self.examine_steps(row)
    }

    /// Whether the states of each flow lie within their ranges on the opening row.
    fn examine_openings(self) -> Result<(), Replayed>
        requires { IsFitted self }
        ensures { result ≡ asks_first self.entry (each_flow opens self.entry.question.now.setting.flows) }
    {
        for index in 0..self.question.setting.flows {
            self.examine_opening(index + 1)?;
        }
        Ok(())
    }

    /// Whether the states of a flow lie within their ranges on the opening row.
    #[tactic(auto, unfolding(crate::specs::Replaying::found, crate::specs::Replaying::weighed_at))]
    fn examine_opening(self, flow: u32) -> Result<(), Replayed>
        requires fitted { IsFitted self }
        requires flow_from { 1 ≤ flow }
        requires flow_to { flow ≤ self.question.now.setting.flows }
        ensures { result ≡ found_at self.entry (opens flow) }
    {
        match opening_holds(self.controller, &self.question.setting, self.run, flow) {
            OpeningHolds::Yes => Ok(()),
            OpeningHolds::State { state: _ } => Err(broken(RunRule::Opening, self.opening, flow)),
            OpeningHolds::Wide(stuck) => Err(Replayed::Wide(stuck)),
        }
    }

    /// The steps of all flows on a controlled row, and then what they send. Each flow is weighed once, so what is amiss
    /// with an arrival waits until the states of all flows are known to be those of a step.
    fn examine_steps(self, row: u32) -> Result<(), Replayed>
        requires fitted { IsFitted self }
        requires row_in { IsControlled self.controller.now self.question.now.setting row }
        ensures { result ≡ asks_first self.entry
            (each_flow (steps row) self.entry.question.now.setting.flows ++ each_flow (sends row) self.entry.question.now.setting.flows) }
    {
        let mut sent = Ok(());
        for index in 0..self.question.setting.flows {
            let sends = self.examine_step(row, index + 1)?;
            sent = sent.and(sends);
        }
        sent
    }

    /// Whether the states are those of a step of the flow; and within, whether the flow sends what it may.
    fn examine_step(self, row: u32, flow: u32) -> Result<Result<(), Replayed>, Replayed>
        requires fitted { IsFitted self }
        requires row_in { IsControlled self.controller.now self.question.now.setting row }
        requires flow_from { 1 ≤ flow }
        requires flow_to { flow ≤ self.question.now.setting.flows }
        ensures { MatchResult result
            (λ sent. (found_at self.entry (steps row flow) ≡ Ok tt) × (sent ≡ found_at self.entry (sends row flow)))
            (λ stop. found_at self.entry (steps row flow) ≡ Err stop) }
    {
        match step_holds(self.controller, &self.question.setting, self.run, row, flow) {
            StepHolds::Yes { rule: _ } => Ok(Ok(())),
            StepHolds::State { state: _ } => Err(broken(RunRule::Step, row, flow)),
            StepHolds::Arrival => Ok(Err(broken(RunRule::Send, row, flow))),
            StepHolds::StepWide(stuck) => Err(Replayed::Wide(stuck)),
            StepHolds::SendWide(stuck) => Ok(Err(Replayed::Wide(stuck))),
        }
    }
}

fn broken(rule: RunRule, row: u32, flow: u32) -> Replayed
    ensures { result ≡ Replayed.Broken rule row flow }
{
    Replayed::Broken { rule, row, flow }
}
