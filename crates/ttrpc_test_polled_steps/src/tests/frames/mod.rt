//! Frames that are read and written by polls.
mod ends;
mod reading_tests;
mod writing_tests;
