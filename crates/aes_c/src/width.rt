//! The width of the words on which the exports process many blocks, for every processor of a
//! target. The build for vectors of 256 bits is proved with `Width256` here.

pub type BuildWidth = aes_hybrid::widths::Width128;
