//! A window over the sectors of a disk: a run of them in memory, for one who goes over the disk in order.
//!
//! A contract sees a window as its first sector and the bytes from there on (`specs/Window.antt` first), and over a
//! disk these are what reads of it give. Nothing is written.
#![tactic(auto)]

mod window;

pub use window::SectorWindow;
