// A picture as an SVG document.
ghost use Rattle.std.specs.Prelude.{◌≡◌, ◌++◌, IfOk, OnOk, string_bytes};
ghost use Rattle.text_lines.specs.Steps.{numbered};
ghost use Rattle.picture_svg.specs.Panels.{panel_text};
ghost use Rattle.picture_svg.specs.Documents.{buffer_text, document_text, head_text, opening_text, pair_text, path_text};

use crate::panels::put_panel;
use crate::styles::{MARKS, STYLES};
use path_server::Path;
use std::alloc::{AllocError, Global};
use std::fmt::Write;
use trace_picture::{Panel, Picture};
use whole::{NoMemory, Pair};

/// The picture as one SVG document.
#[tactic(auto, unfolding(crate::specs::Documents::document_text))]
pub fn svg(alloc: Global, picture: &Picture) -> Result<Vec<u8>, NoMemory>
    ensures { IfOk result (λ bytes. bytes.items ≡ document_text picture.now) }
{
    let mut out = String::new(alloc);
    put_opening(&mut out, picture.panels.len())?;
    out.push_str(MARKS)?;
    out.push_str(STYLES)?;
    put_head(&mut out, picture)?;
    put_panels(&mut out, picture, picture.panels.as_slice())?;
    out.push_str("</svg>\n")?;
    Ok(out.into_bytes())
}

/// The size of the document.
#[tactic(auto, unfolding(crate::specs::Documents::opening_text))]
fn put_opening(out: &mut String, panels: usize) -> Result<(), AllocError>
    ensures { OnOk result (string_bytes out.new ≡ string_bytes out.old ++ opening_text panels) }
{
    out.push_str("<svg xmlns='http://www.w3.org/2000/svg' ")?;
    write!(out, "width='48pc' height='{}2.5pc' ", panels)?;
    write!(out, "viewBox='0 0 48000 {}2500'>\n", panels)
}

/// What the run is on.
#[tactic(auto, unfolding(crate::specs::Documents::head_text))]
fn put_head(out: &mut String, picture: &Picture) -> Result<(), AllocError>
    ensures { OnOk result (string_bytes out.new ≡ string_bytes out.old ++ head_text picture.now) }
{
    write!(
        out,
        "<text class='head' x='4000' y='1100'>flows {}, rate ",
        picture.shape.flows
    )?;
    put_path(out, &picture.path)?;
    out.push_str("</text>\n")?;
    write!(
        out,
        "<text x='4000' y='2100'>amounts since row 0; the dotted upright is the opening row, row {}</text>\n",
        picture.shape.h
    )
}

fn put_path(out: &mut String, path: &Path) -> Result<(), AllocError>
    ensures { OnOk result (string_bytes out.new ≡ string_bytes out.old ++ path_text path.now) }
{
    put_pair(out, &path.rate)?;
    write!(out, ", jitter {}, buffer ", path.jitter)?;
    put_buffer(out, &path.buffer)
}

fn put_buffer(out: &mut String, buffer: &Option<Pair>) -> Result<(), AllocError>
    ensures { OnOk result (string_bytes out.new ≡ string_bytes out.old ++ buffer_text buffer.now) }
{
    match buffer {
        None => out.push_str("none"),
        Some(buffer) => put_pair(out, buffer),
    }
}

#[tactic(auto, unfolding(crate::specs::Documents::pair_text))]
fn put_pair(out: &mut String, pair: &Pair) -> Result<(), AllocError>
    ensures { OnOk result (string_bytes out.new ≡ string_bytes out.old ++ pair_text pair.now) }
{
    if pair.den == 1 {
        return write!(out, "{}", pair.num);
    }
    write!(out, "{}/{}", pair.num, pair.den)
}

fn put_panels(out: &mut String, picture: &Picture, panels: &[Panel]) -> Result<(), AllocError>
    ensures { OnOk result (string_bytes out.new ≡ string_bytes out.old ++ numbered (panel_text picture.now) 0 panels.now) }
{
    for (i, panel) in panels.iter().enumerate() {
        put_panel(out, picture, i, panel)?;
    }
    Ok(())
}
