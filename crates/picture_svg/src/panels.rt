// A panel with its axes, its lines and its legend.
ghost use Rattle.std.specs.Prelude.{◌≡◌, ◌++◌, OnOk, string_bytes};
ghost use Rattle.text_lines.specs.Steps.{numbered};
ghost use Rattle.picture_svg.specs.Shapes.{listed};
ghost use Rattle.picture_svg.specs.Panels.{area_of, axes_text, columns_text, frame_text, legend_text, line_text, name_text, panel_text, sample_of, tick_style, tick_text, title_text};

use crate::shapes::{put_area, put_column, put_grid, put_polyline, put_sample, put_thousandths};
use crate::styles::{label_of, style_of, unit_of};
use std::alloc::AllocError;
use std::fmt::Write;
use trace_picture::{Line, Panel, Picture, Quantity, Tick, Title};

/// The panel with this number, from 0.
#[tactic(auto, unfolding(crate::specs::Panels::panel_text))]
pub(crate) fn put_panel(
    out: &mut String,
    picture: &Picture,
    number: usize,
    panel: &Panel,
) -> Result<(), AllocError>
    ensures { OnOk result (string_bytes out.new ≡ string_bytes out.old ++ panel_text picture.now number panel.now) }
{
    write!(
        out,
        "<g transform='translate(4000 {}0000) translate(0 10700)'>\n",
        number
    )?;
    put_title(out, panel.title)?;
    put_areas(out, panel.lines.as_slice())?;
    put_axes(out, picture, panel)?;
    put_lines(out, panel.lines.as_slice())?;
    put_legend(out, panel.lines.as_slice())?;
    out.push_str("</g>\n")
}

#[tactic(auto, unfolding(crate::specs::Panels::title_text))]
fn put_title(out: &mut String, title: Title) -> Result<(), AllocError>
    ensures { OnOk result (string_bytes out.new ≡ string_bytes out.old ++ title_text title) }
{
    out.push_str("<text class='title' y='-7050'>")?;
    put_name(out, title)?;
    out.push_str(
        "</text>\n<text text-anchor='middle' transform='translate(-3000 -3350) rotate(-90)'>",
    )?;
    out.push_str(unit_of(title))?;
    out.push_str("</text>\n")
}

fn put_name(out: &mut String, title: Title) -> Result<(), AllocError>
    ensures { OnOk result (string_bytes out.new ≡ string_bytes out.old ++ name_text title) }
{
    match title {
        Title::OfPath => out.push_str(
            "path: served by each row, and the band that its rules allow",
        ),
        Title::OfFlow(flow) => write!(out, "flow {}: by each row", flow),
        Title::OfQueue => out.push_str("queue: accepted and not yet served"),
        Title::OfState(state) => write!(out, "state {}, where 0 is the controller's first", state),
    }
}

/// The area of what may have been served, and over it that of what has to have been.
fn put_areas(out: &mut String, lines: &[Line]) -> Result<(), AllocError>
    ensures { OnOk result (string_bytes out.new ≡ string_bytes out.old ++ listed area_of lines.now) }
{
    for line in lines {
        put_area_of(out, line)?;
    }
    Ok(())
}

fn put_area_of(out: &mut String, line: &Line) -> Result<(), AllocError>
    ensures { OnOk result (string_bytes out.new ≡ string_bytes out.old ++ area_of line.now) }
{
    match line.quantity {
        Quantity::Most => put_area(out, "band", line.points.as_slice()),
        Quantity::Least => put_area(out, "blank", line.points.as_slice()),
        _ => Ok(()),
    }
}

/// The ticks of both axes, the opening row and the frame.
#[tactic(auto, unfolding(crate::specs::Panels::axes_text))]
fn put_axes(out: &mut String, picture: &Picture, panel: &Panel) -> Result<(), AllocError>
    ensures { OnOk result (string_bytes out.new ≡ string_bytes out.old ++ axes_text picture.now panel.now) }
{
    put_ticks(out, panel.ticks.as_slice())?;
    put_columns(out, picture.columns.as_slice())?;
    put_frame(out, picture.opening)
}

fn put_ticks(out: &mut String, ticks: &[Tick]) -> Result<(), AllocError>
    ensures { OnOk result (string_bytes out.new ≡ string_bytes out.old ++ listed tick_text ticks.now) }
{
    for tick in ticks {
        put_tick(out, *tick)?;
    }
    Ok(())
}

#[tactic(auto, unfolding(crate::specs::Panels::tick_text))]
fn put_tick(out: &mut String, tick: Tick) -> Result<(), AllocError>
    ensures { OnOk result (string_bytes out.new ≡ string_bytes out.old ++ tick_text tick) }
{
    put_grid(out, tick_style(tick.amount), tick.up)?;
    write!(
        out,
        "<text text-anchor='end' dy='230' x='-400' y='-{}'>",
        tick.up
    )?;
    put_thousandths(out, tick.amount)?;
    out.push_str("</text>\n")
}

/// The line at nothing stands out.
fn tick_style(amount: i128) -> &'static str
    ensures { result.now ≡ tick_style amount }
{
    if amount == 0 { "zero" } else { "grid" }
}

fn put_columns(out: &mut String, columns: &[u32]) -> Result<(), AllocError>
    ensures { OnOk result (string_bytes out.new ≡ string_bytes out.old ++ columns_text columns.now) }
{
    for (row, across) in columns.iter().enumerate() {
        put_column(out, row, *across)?;
    }
    Ok(())
}

#[tactic(auto, unfolding(crate::specs::Panels::frame_text))]
fn put_frame(out: &mut String, opening: u32) -> Result<(), AllocError>
    ensures { OnOk result (string_bytes out.new ≡ string_bytes out.old ++ frame_text opening) }
{
    write!(out, "<path class='opening' d='M{},0V-6700'/>\n", opening)?;
    out.push_str("<text x='32200' y='900'>row (one step of time)</text>\n")?;
    out.push_str("<path class='axis' d='M0,-6700V0H31000V-6700z'/>\n")
}

fn put_lines(out: &mut String, lines: &[Line]) -> Result<(), AllocError>
    ensures { OnOk result (string_bytes out.new ≡ string_bytes out.old ++ listed line_text lines.now) }
{
    for line in lines {
        put_line(out, line)?;
    }
    Ok(())
}

fn put_line(out: &mut String, line: &Line) -> Result<(), AllocError>
    ensures { OnOk result (string_bytes out.new ≡ string_bytes out.old ++ line_text line.now) }
{
    put_polyline(out, style_of(line.quantity), line.points.as_slice())
}

fn put_legend(out: &mut String, lines: &[Line]) -> Result<(), AllocError>
    ensures { OnOk result (string_bytes out.new ≡ string_bytes out.old ++ legend_text lines.now) }
{
    out.push_str("<g transform='translate(0 -6200)'>\n")?;
    put_samples(out, lines)?;
    out.push_str("</g>\n")
}

fn put_samples(out: &mut String, lines: &[Line]) -> Result<(), AllocError>
    ensures { OnOk result (string_bytes out.new ≡ string_bytes out.old ++ numbered sample_of 0 lines.now) }
{
    for (i, line) in lines.iter().enumerate() {
        put_sample_of(out, i, line)?;
    }
    Ok(())
}

fn put_sample_of(out: &mut String, number: usize, line: &Line) -> Result<(), AllocError>
    ensures { OnOk result (string_bytes out.new ≡ string_bytes out.old ++ sample_of number line.now) }
{
    put_sample(
        out,
        number,
        style_of(line.quantity),
        label_of(line.quantity),
    )
}
