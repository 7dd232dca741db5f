// How high an amount stands in its panel.
ghost use Rattle.std.specs.Prelude.{◌≡◌, ◌+◌, ◌≤◌, pos, ◌*ℤ◌, IfOk, IfSome, OnOk};
ghost use Rattle.trace_picture.specs.Places.{tick_of, ticks_of};

use crate::exact::{DrawFault, product, sum};
use sqlite_items::Items;
use std::alloc::{AllocError, Global};

/// The height of a panel, in thousandths of a pica.
const HEIGHT: u128 = 6_700;

/// The range of a panel: so many steps below nothing and above it.
#[derive(Clone, Copy, Debug)]
pub struct Scale {
    /// The distance of two ticks, in thousandths of a unit of data: 1, 2 or 5 times a power of 10.
    pub step: u64,
    /// A step as amounts are measured, times 1000.
    pub width: i128,
    /// How many steps there are below nothing.
    pub below: u32,
    /// How many steps there are above nothing, at least 1.
    pub above: u32,
}

/// A tick of the axis of amounts.
#[derive(Clone, Copy, Debug, PartialEq, Eq)]
pub struct Tick {
    /// Above the panel's lower edge, in thousandths of a pica.
    pub up: u32,
    /// In thousandths of a unit of data.
    pub amount: i128,
}

/// The least amount, which is 0 or below, and the greatest, which is 0 or above.
#[derive(Clone, Copy, Debug)]
pub(crate) struct Span {
    pub least: i128,
    pub most: i128,
}

impl Span {
    pub(crate) fn with(self, amount: i128) -> Span {
        Span {
            least: self.least.min(amount),
            most: self.most.max(amount),
        }
    }
}

impl Scale {
    ghost use Rattle.trace_picture.specs.Places.{Shows, above_edge, range_of, up_of};

    /// The scale with the least step for which five steps or fewer hold the span. `thousandth` is a thousandth of a unit of
    /// data, in thousandths of the amounts' unit.
    pub(crate) fn of(thousandth: i128, span: Span) -> Result<Scale, DrawFault>
        ensures width { IfOk result (λ s. s.width ≡ pos s.step *ℤ thousandth) }
        ensures some { IfOk result (λ s. 1 ≤ s.above) }
        ensures few { IfOk result (λ s. s.below + s.above ≤ 5) }
    {
        let mut tens: u64 = 1;
        for _ in 0..13 {
            for digit in [1, 2, 5] {
                let step = tens.saturating_mul(digit);
                if let Some(scale) = Scale::with_step(step, thousandth, span)? {
                    return Ok(scale);
                }
            }
            tens = tens.saturating_mul(10);
        }
        Err(DrawFault::Wide)
    }

    /// The scale with this step, if five steps or fewer hold the span.
    fn with_step(step: u64, thousandth: i128, span: Span) -> Result<Option<Scale>, DrawFault>
        ensures width { IfOk result (λ found. IfSome found (λ s. (s.step ≡ step) × (s.width ≡ pos s.step *ℤ thousandth))) }
        ensures some { IfOk result (λ found. IfSome found (λ s. 1 ≤ s.above)) }
        ensures few { IfOk result (λ found. IfSome found (λ s. s.below + s.above ≤ 5)) }
    {
        let width = product(i128::from(step), thousandth)?;
        let (Some(below), Some(above)) = (steps(span.least, width)?, steps(span.most, width)?)
        else {
            return Ok(None);
        };
        let above = above.max(1);
        if below + above > 5 {
            return Ok(None);
        }
        Ok(Some(Scale {
            step,
            width,
            below,
            above,
        }))
    }

    /// How high the amount stands above the panel's lower edge, in thousandths of a pica, rounded down.
    pub(crate) fn up(&self, amount: i128) -> Result<u128, DrawFault>
        ensures exact { IfOk result (λ up. up ≡ up_of self.now amount) }
        ensures within { OnOk result (Shows self.now amount) }
    {
        let above = self.above_edge(amount)?;
        let (Some(scaled), Some(range)) = (above.checked_mul(HEIGHT), self.range()) else {
            return Err(DrawFault::Wide);
        };
        if range == 0 || scaled / range > HEIGHT {
            return Err(DrawFault::Wide);
        }
        Ok(scaled / range)
    }

    /// What the amount is above the panel's lower edge.
    fn above_edge(&self, amount: i128) -> Result<u128, DrawFault>
        ensures { IfOk result (λ part. above_edge self.now amount ≡ pos part) }
    {
        let low = product(i128::from(self.below), self.width)?;
        natural(sum(product(1000, amount)?, low)?)
    }

    /// What the panel shows from its lower edge to its upper edge.
    fn range(&self) -> Option<u128>
        ensures { IfSome result (λ range. range ≡ range_of self.now) }
    {
        let steps = u128::from(self.below) + u128::from(self.above);
        steps.checked_mul(self.width.unsigned_abs())
    }
}

/// The ticks from the panel's lower edge to its upper edge.
pub(crate) fn ticks_of(alloc: Global, scale: &Scale) -> Result<Items<Tick>, AllocError>
    requires some { 1 ≤ scale.now.above }
    requires few { scale.now.below + scale.now.above ≤ 5 }
    ensures { IfOk result (λ ticks. ticks ≡ ticks_of scale.now) }
{
    let mut ticks = Items::new(alloc);
    for number in 0..scale.below + scale.above + 1 {
        ticks.push(tick_of(scale, number))?;
    }
    Ok(ticks)
}

fn tick_of(scale: &Scale, number: u32) -> Tick
    requires some { 1 ≤ scale.now.above }
    requires few { scale.now.below + scale.now.above ≤ 5 }
    requires number_in { number ≤ 5 }
    ensures { result ≡ tick_of scale.now number }
{
    Tick {
        up: number * 6_700 / (scale.below + scale.above),
        amount: (i128::from(number) - i128::from(scale.below)) * i128::from(scale.step),
    }
}

/// The number, if it isn't below 0.
fn natural(number: i128) -> Result<u128, DrawFault>
    ensures { IfOk result (λ n. number ≡ pos n) }
{
    if number < 0 {
        return Err(DrawFault::Wide);
    }
    Ok(number.unsigned_abs())
}

/// How many steps of this width hold the size of the amount, if five do.
fn steps(amount: i128, width: i128) -> Result<Option<u32>, DrawFault>
    ensures { IfOk result (λ found. IfSome found (λ n. n ≤ 5)) }
{
    let size = product(1000, amount)?.unsigned_abs();
    for count in 0..6 {
        if product(width, i128::from(count))?.unsigned_abs() >= size {
            return Ok(Some(count));
        }
    }
    Ok(None)
}
