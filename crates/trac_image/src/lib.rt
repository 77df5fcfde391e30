//! The image of a machine's forms: bytes without an address that hold each form with its gaps and its pointer, and
//! the meta character. They are the same on every machine and in every byte order, and end with a checksum. The
//! image and its form are this processor's own choice.
#![tactic(auto)]

mod body;
mod buffer;
mod checksum;
mod content;
mod fitting;
mod items;
mod laws;
mod loading;
mod reading;
mod saving;

pub use buffer::put;
pub use laws::{image_tells_forms, saved_forms_are_loaded};
pub use loading::load;
pub use saving::save;

#[cfg(test)]
mod tests;
