//! The layout of an image: where the journal, the tags and the data lie, and which blocks make a
//! region.
//!
//! A contract sees a `Geometry` as the record of that name in `image_model`; `GeomFault` is a type of that crate.
//! Where all lies is stated there, in `specs/Geometry.antt`, the file to read first, and that no two things
//! overlap in its `specs/GeometryLaws.antt`. No memory is taken.
#![tactic(auto)]

mod geometry;
mod layout;
mod providing;
mod regions;

pub use geometry::Geometry;
pub use image_model::GeomFault;
pub use providing::best_provided;
