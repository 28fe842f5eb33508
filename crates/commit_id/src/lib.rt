//! Which sections of a journal count after a cut: the shape of a section, the commit ids of its
//! sectors, and the scan of a journal by the numbers that these ids bear.
//!
//! `Cell`, `Plan`, `State` and `ScanFault` are types of `image_model`; a `Shape` and a `Grid` are mapped to the
//! definitions there by `as_shape` and `as_grid`. `specs/Shape.antt` is the file to read first.
#![tactic(auto)]

mod grid;
mod ids;
mod plan;
mod scanning;
mod shape;
mod spread;
mod tally;

pub use grid::Grid;
pub use ids::{id, number_of};
pub use image_model::{Cell, Plan, ScanFault, State};
pub use scanning::scan;
pub use shape::Shape;
