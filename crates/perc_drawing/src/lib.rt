//! A report of a conference, drawn as a sequence diagram in SVG.
#![tactic(auto)]

mod canvas;
mod drawing;
mod element;
mod layout;
mod markup;
mod picture;
mod report;
mod row;
mod shapes;
mod top;

pub use top::{Status, run};
