// The drawing primitives. What is up in a panel is below 0 in SVG.
ghost use Rattle.std.specs.Prelude.{◌≡◌, ◌++◌, OnOk, string_bytes};
ghost use Rattle.picture_svg.specs.Shapes.{area_text, column_text, fraction_text, grid_text, listed, point_text, polyline_text, sample_text, signed_thousandths, thousandths};

use std::alloc::AllocError;
use std::fmt::Write;
use trace_picture::Point;

/// A line through the points.
#[tactic(auto, unfolding(crate::specs::Shapes::polyline_text))]
pub(crate) fn put_polyline(
    out: &mut String,
    style: &str,
    points: &[Point],
) -> Result<(), AllocError>
    ensures { OnOk result (string_bytes out.new ≡ string_bytes out.old ++ polyline_text style.now points.now) }
{
    write!(out, "<polyline class='{}' points='", style)?;
    put_points(out, points)?;
    out.push_str("'/>\n")
}

/// The area between the points and the panel's lower edge.
#[tactic(auto, unfolding(crate::specs::Shapes::area_text))]
pub(crate) fn put_area(out: &mut String, style: &str, points: &[Point]) -> Result<(), AllocError>
    ensures { OnOk result (string_bytes out.new ≡ string_bytes out.old ++ area_text style.now points.now) }
{
    write!(out, "<polygon class='{}' points='0,0 ", style)?;
    put_points(out, points)?;
    out.push_str("31000,0'/>\n")
}

fn put_points(out: &mut String, points: &[Point]) -> Result<(), AllocError>
    ensures { OnOk result (string_bytes out.new ≡ string_bytes out.old ++ listed point_text points.now) }
{
    for point in points {
        put_point(out, *point)?;
    }
    Ok(())
}

fn put_point(out: &mut String, point: Point) -> Result<(), AllocError>
    ensures { OnOk result (string_bytes out.new ≡ string_bytes out.old ++ point_text point) }
{
    write!(out, "{},-{} ", point.across, point.up)
}

/// A line across the panel.
#[tactic(auto, unfolding(crate::specs::Shapes::grid_text))]
pub(crate) fn put_grid(out: &mut String, style: &str, up: u32) -> Result<(), AllocError>
    ensures { OnOk result (string_bytes out.new ≡ string_bytes out.old ++ grid_text style.now up) }
{
    write!(out, "<path class='{}' d='M0,-{}H31000'/>\n", style, up)
}

/// An amount in thousandths: its sign, its whole part, and three digits behind the point where one isn't 0.
#[tactic(auto, unfolding(crate::specs::Shapes::signed_thousandths))]
pub(crate) fn put_thousandths(out: &mut String, amount: i128) -> Result<(), AllocError>
    ensures { OnOk result (string_bytes out.new ≡ string_bytes out.old ++ signed_thousandths amount) }
{
    if amount < 0 {
        out.push_str("-")?;
    }
    put_size(out, amount.unsigned_abs())
}

#[tactic(auto, unfolding(crate::specs::Shapes::thousandths))]
fn put_size(out: &mut String, size: u128) -> Result<(), AllocError>
    ensures { OnOk result (string_bytes out.new ≡ string_bytes out.old ++ thousandths size) }
{
    write!(out, "{}", size / 1000)?;
    put_fraction(out, size % 1000)
}

/// The digits behind the point, without the last ones that are 0.
#[tactic(auto, unfolding(crate::specs::Shapes::fraction_text))]
fn put_fraction(out: &mut String, rest: u128) -> Result<(), AllocError>
    ensures { OnOk result (string_bytes out.new ≡ string_bytes out.old ++ fraction_text rest) }
{
    if rest == 0 {
        return Ok(());
    }
    if rest % 100 == 0 {
        return write!(out, ".{}", rest / 100);
    }
    if rest % 10 == 0 {
        return write!(out, ".{}{}", rest / 100, rest / 10 % 10);
    }
    write!(out, ".{}{}{}", rest / 100, rest / 10 % 10, rest % 10)
}

/// A tick of the axis of rows.
#[tactic(auto, unfolding(crate::specs::Shapes::column_text))]
pub(crate) fn put_column(out: &mut String, row: usize, across: u32) -> Result<(), AllocError>
    ensures { OnOk result (string_bytes out.new ≡ string_bytes out.old ++ column_text row across) }
{
    write!(out, "<path class='axis' d='M{},0v250'/>\n", across)?;
    write!(
        out,
        "<text text-anchor='middle' x='{}' y='900'>{}</text>\n",
        across, row
    )
}

/// The line of a legend with this number.
#[tactic(auto, unfolding(crate::specs::Shapes::sample_text))]
pub(crate) fn put_sample(
    out: &mut String,
    number: usize,
    style: &str,
    label: &str,
) -> Result<(), AllocError>
    ensures { OnOk result (string_bytes out.new ≡ string_bytes out.old ++ sample_text number style.now label.now) }
{
    write!(out, "<g transform='translate(32200 {}000)'>", number)?;
    write!(
        out,
        "<polyline class='{}' points='0,0 1250,0 2500,0'/>",
        style
    )?;
    write!(out, "<text dy='230' x='3000'>{}</text></g>\n", label)
}
