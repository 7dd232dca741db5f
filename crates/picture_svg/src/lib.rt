//! A picture of a run as an SVG document.
//!
//! What is drawn and where, `trace_picture` says; here each panel is written with its axes, its lines and its legend. Styles
//! of lines and marks tell them apart, no colour does. A unit of the drawing is a thousandth of a pica, and a pica is 16 pixels.
#![tactic(auto)]

mod documents;
mod panels;
mod shapes;
mod styles;

pub use documents::svg;
