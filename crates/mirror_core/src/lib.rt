//! A mirror of two devices in journal mode.
//!
//! `src/device_leg.rt` is a device as a leg of `mirror_calls`. `specs/Stands.antt` is what such a leg stands for.
#![tactic(auto)]

mod closing;
mod device_leg;
mod image_laws;
mod leg_laws;
mod mirror;
mod running;

pub use device_leg::DeviceLeg;
pub use image_laws::{images_are_twins, images_keep_what_is_flushed, pairs_of_images_are_kept};
pub use leg_laws::{devices_are_legs, legs_are_left_as_told, legs_stand};
pub use mirror::{Mirror, close, give_back, mirror_of};
