//! What no clause says: that the calls answer, with the standards' values, at every type and by
//! every way to them.

mod backends;
mod copies;
mod every_cipher;
mod examples;
mod forms;
mod hazmat;
mod hybrid;
mod names;
mod narrow;
mod rounds;
mod slices;
mod values;
mod vectors;
mod wiped_blocks;
