// The marks and the styles, which no colour tells apart, and what the legends say.
ghost use Rattle.std.specs.Prelude.{◌≡◌};
ghost use Rattle.picture_svg.specs.Names.{flow_style, flow_label, label_of, style_of, unit_of};

use trace_picture::{Quantity, Title};

/// The marks that stand at points.
pub(crate) const MARKS: &str = "<defs>
<marker id='disc' viewBox='-5 -5 10 10' markerUnits='userSpaceOnUse' markerWidth='560' markerHeight='560'><circle r='3.6' fill='#000'/></marker>
<marker id='ring' viewBox='-5 -5 10 10' markerUnits='userSpaceOnUse' markerWidth='750' markerHeight='750'><circle r='3.4' fill='#fff' stroke='#000'/></marker>
<marker id='box' viewBox='-5 -5 10 10' markerUnits='userSpaceOnUse' markerWidth='620' markerHeight='620'><path d='M-3,-3H3V3H-3z' fill='#fff'/></marker>
<marker id='cross' viewBox='-5 -5 10 10' markerUnits='userSpaceOnUse' markerWidth='620' markerHeight='620'><path d='M-3.5,-3.5L3.5,3.5M-3.5,3.5L3.5,-3.5'/></marker>
<marker id='wedge' viewBox='-5 -5 10 10' markerUnits='userSpaceOnUse' markerWidth='750' markerHeight='750'><path d='M0,-4L4,3.5H-4z' fill='#000'/></marker>
</defs>
";

/// The styles of texts, axes and lines.
pub(crate) const STYLES: &str = "<style>
text { font-family: sans-serif; font-size: 650px; fill: #000; }
.head { font-size: 900px; font-weight: bold; }
.title { font-size: 780px; font-weight: bold; }
polyline, path { fill: none; stroke: #000; stroke-width: 85; }
marker path, marker circle { stroke-width: 1.3; }
.grid { stroke: #ccc; stroke-width: 35; }
.zero { stroke: #555; stroke-width: 50; }
.axis { stroke-width: 50; }
.opening { stroke: #555; stroke-width: 55; stroke-dasharray: 120 180; }
.band { fill: #ddd; }
.blank { fill: #fff; }
.most { stroke: #777; stroke-width: 50; }
.least { stroke: #777; stroke-width: 50; stroke-dasharray: 250 150; }
.sent { stroke-width: 55; marker: url(#ring); }
.accepted { stroke-dasharray: 430 250; marker: url(#box); }
.served { stroke-width: 130; marker: url(#disc); }
.lost { stroke-dasharray: 90 190; marker: url(#cross); }
.flow1 { stroke-width: 100; marker: url(#disc); }
.flow2 { stroke-dasharray: 430 250; marker: url(#box); }
.flow3 { stroke-dasharray: 90 190; marker: url(#wedge); }
.flow4 { stroke-dasharray: 560 190 90 190; marker: url(#cross); }
.backlog { stroke-width: 60; stroke-dasharray: 190 120; marker: url(#ring); }
.limit { stroke: #555; stroke-width: 180; stroke-dasharray: 870 310; }
</style>
<rect class='blank' width='100%' height='100%'/>
";

/// The name of the line's style.
pub(crate) fn style_of(quantity: Quantity) -> &'static str
    ensures { result.now ≡ style_of quantity }
{
    match quantity {
        Quantity::Sent { .. } => "sent",
        Quantity::Accepted { .. } | Quantity::AllAccepted => "accepted",
        Quantity::Served { .. } | Quantity::AllServed => "served",
        Quantity::Lost { .. } => "lost",
        Quantity::Waiting { flow } | Quantity::State { flow, .. } => flow_style(flow),
        Quantity::Most => "most",
        Quantity::Least => "least",
        Quantity::Backlog => "backlog",
        Quantity::Buffer => "limit",
    }
}

/// What the legend says of the line.
pub(crate) fn label_of(quantity: Quantity) -> &'static str
    ensures { result.now ≡ label_of quantity }
{
    match quantity {
        Quantity::Sent { .. } => "sent",
        Quantity::Accepted { .. } => "accepted",
        Quantity::Served { .. } => "served",
        Quantity::Lost { .. } => "lost",
        Quantity::Waiting { flow } | Quantity::State { flow, .. } => flow_label(flow),
        Quantity::Most => "band: most allowed",
        Quantity::Least => "band: least allowed",
        Quantity::AllAccepted => "accepted, all flows",
        Quantity::AllServed => "served, all flows",
        Quantity::Backlog => "beyond most allowed",
        Quantity::Buffer => "buffer",
    }
}

fn flow_style(flow: u32) -> &'static str
    ensures { result.now ≡ flow_style flow }
{
    match flow {
        1 => "flow1",
        2 => "flow2",
        3 => "flow3",
        _ => "flow4",
    }
}

fn flow_label(flow: u32) -> &'static str
    ensures { result.now ≡ flow_label flow }
{
    match flow {
        1 => "flow 1",
        2 => "flow 2",
        3 => "flow 3",
        _ => "flow 4",
    }
}

/// The unit of a panel's amounts. A state is an amount of data or a count, which a trace doesn't say.
pub(crate) fn unit_of(title: Title) -> &'static str
    ensures { result.now ≡ unit_of title }
{
    match title {
        Title::OfState(_) => "value",
        _ => "units of data",
    }
}
