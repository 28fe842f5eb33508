//! The command `mirror`: two images are opened as the legs of a mirror, a script is run on it, and it is closed.
//!
//! `specs/Mirrored.antt` is the file to read first, behind `mirror_model`'s `Command.antt`.
#![tactic(auto)]

mod mirroring;
mod refusing;
mod running;

pub use mirroring::mirror_images;
