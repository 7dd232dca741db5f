// The sums that stand in the rules of a path, over the columns of a shape.
ghost use Rattle.std.specs.Prelude.{◌≡◌, ◌<◌, ◌≤◌, ◌^◌, [], ◌∷◌, pos, negsuc, IfOk, unsigned_abs};
ghost use Rattle.claims.specs.Subjects.{of_arrivals, of_losses, of_service, part};
ghost use Rattle.path_server.specs.Claims.{accepted, allowance, new_losses, room, service};
ghost use Rattle.path_server.specs.Limits.{IsNumber, IsPath};
ghost use Rattle.path_server.specs.Scales.{IsScale, factors};
ghost use Rattle.path_server.specs.Servers.{server_of};
ghost use Rattle.run_rows.specs.Columns.{rows_of};
ghost use Rattle.run_rows.specs.Limits.{IsWithin};
ghost use Rattle.unroll.specs.Sums.{with_parts};

use crate::sums::Sum;
use path_server::{Path, Scale};
use run_rows::{Entry, Shape};
use whole::{NoMemory, Pair};

impl Sum {
    /// The sum with the service of each flow.
    pub(crate) fn plus_service(
        self,
        shape: &Shape,
        scale: &Scale,
        row: u32,
    ) -> Result<Sum, NoMemory>
        requires within { IsWithin shape.now }
        requires row_in { row < rows_of shape.now }
        ensures value { IfOk result (λ sum. sum ≡ with_parts shape.now self (service part shape.now.flows (factors scale.now) row)) }
        ensures constant { IfOk result (λ sum. sum.constant ≡ self.constant) }
    {
        let mut sum = self;
        for index in 0..shape.flows {
            sum = sum.plus_service_of(shape, scale, row, index + 1)?;
        }
        Ok(sum)
    }

    fn plus_service_of(
        self,
        shape: &Shape,
        scale: &Scale,
        row: u32,
        flow: u32,
    ) -> Result<Sum, NoMemory>
        requires within { IsWithin shape.now }
        requires row_in { row < rows_of shape.now }
        requires flow_from { 1 ≤ flow }
        requires flow_to { flow ≤ shape.now.flows }
        ensures { IfOk result (λ sum. sum ≡ with_parts shape.now self (part scale.now.unit (of_service row flow) ∷ [])) }
    {
        self.plus(shape, scale.unit, Entry::S { row, flow })
    }

    /// The sum with what arrived of each flow and wasn't lost.
    pub(crate) fn plus_accepted(
        self,
        shape: &Shape,
        scale: &Scale,
        row: u32,
    ) -> Result<Sum, NoMemory>
        requires within { IsWithin shape.now }
        requires row_in { row < rows_of shape.now }
        ensures value { IfOk result (λ sum. sum ≡ with_parts shape.now self (accepted part shape.now.flows (factors scale.now) row)) }
        ensures constant { IfOk result (λ sum. sum.constant ≡ self.constant) }
    {
        let mut sum = self;
        for index in 0..shape.flows {
            sum = sum.plus_accepted_of(shape, scale, row, index + 1)?;
        }
        Ok(sum)
    }

    fn plus_accepted_of(
        self,
        shape: &Shape,
        scale: &Scale,
        row: u32,
        flow: u32,
    ) -> Result<Sum, NoMemory>
        requires within { IsWithin shape.now }
        requires row_in { row < rows_of shape.now }
        requires flow_from { 1 ≤ flow }
        requires flow_to { flow ≤ shape.now.flows }
        ensures { IfOk result (λ sum. sum ≡ with_parts shape.now self (part scale.now.unit (of_arrivals row flow) ∷ part scale.now.minus (of_losses row flow) ∷ [])) }
    {
        let arrived = self.plus(shape, scale.unit, Entry::A { row, flow })?;
        arrived.plus(shape, scale.minus, Entry::L { row, flow })
    }

    /// The sum with the losses that each flow has on `row` and not yet on `before`.
    pub(crate) fn plus_new_losses(
        self,
        shape: &Shape,
        row: u32,
        before: u32,
    ) -> Result<Sum, NoMemory>
        requires within { IsWithin shape.now }
        requires row_in { row < rows_of shape.now }
        requires before_in { before < rows_of shape.now }
        ensures { IfOk result (λ sum. sum ≡ with_parts shape.now self (new_losses part shape.now.flows row before)) }
    {
        let mut sum = self;
        for index in 0..shape.flows {
            sum = sum.plus_new_losses_of(shape, row, before, index + 1)?;
        }
        Ok(sum)
    }

    #[tactic(auto, using(whole::proofs::Overflow::signed))]
    fn plus_new_losses_of(
        self,
        shape: &Shape,
        row: u32,
        before: u32,
        flow: u32,
    ) -> Result<Sum, NoMemory>
        requires within { IsWithin shape.now }
        requires row_in { row < rows_of shape.now }
        requires before_in { before < rows_of shape.now }
        requires flow_from { 1 ≤ flow }
        requires flow_to { flow ≤ shape.now.flows }
        ensures { IfOk result (λ sum. sum ≡ with_parts shape.now self (part (pos 1) (of_losses row flow) ∷ part (negsuc 0) (of_losses before flow) ∷ [])) }
    {
        let lost = self.plus(shape, 1, Entry::L { row, flow })?;
        lost.plus(shape, -1, Entry::L { row: before, flow })
    }

    /// The sum, which has no constant yet, with the most that may have been served `back` rows before `row`.
    pub(crate) fn plus_allowance(
        self,
        shape: &Shape,
        path: &Path,
        scale: &Scale,
        row: u32,
        back: u32,
    ) -> Result<Sum, NoMemory>
        requires within { IsWithin shape.now }
        requires path_in { IsPath path.now }
        requires scale_in { IsScale scale.now }
        requires row_in { row < rows_of shape.now }
        requires back_in { back ≤ 8 }
        requires none { self.constant ≡ pos 0 }
        ensures value { IfOk result (λ sum. sum ≡ with_parts shape.now self (allowance part (server_of path.now) (factors scale.now) row back)) }
        ensures constant { IfOk result (λ sum. unsigned_abs sum.constant ≤ 72000000000) }
    {
        let served = self.plus_constant(scale.rate_over(path, row, back));
        let credited = served.plus(shape, scale.unit, Entry::Credit)?;
        let row = row.saturating_sub(back);
        credited.plus(shape, scale.minus, Entry::W { row })
    }

    /// The sum with the buffer.
    pub(crate) fn plus_room(self, buffer: &Pair, scale: &Scale) -> Sum
        requires scale_in { IsScale scale.now }
        requires buffer_in { IsNumber buffer.now }
        requires constant_in { unsigned_abs self.constant ≤ 72000000000 }
        ensures { (s : Shape) → result ≡ with_parts s self (room part buffer.now (factors scale.now)) }
    {
        self.plus_constant(scale.buffer_of(buffer))
    }
}
