// The pixels of a bin: finding the one that is missing, and counting them.
#![tactic(auto)]

pub mod columns;
pub mod counts;
pub mod line;
pub mod lines;
pub mod lookups;
pub mod pixel;

pub use counts::count_pixels;
pub use lookups::{bin_of, lone_pixel, place_of};
pub use pixel::Pixel;
