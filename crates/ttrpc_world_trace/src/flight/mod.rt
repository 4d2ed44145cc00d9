//! Laws of the frames in flight from one core to another: of their bytes, of their seals, and of the frames of one stream.

pub mod laws;
