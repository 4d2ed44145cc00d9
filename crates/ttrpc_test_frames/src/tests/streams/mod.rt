//! The tests of readers and writers of headers, frames and messages. They have rows of bytes that are read, with the
//! result of each reader, and rows of messages that are written, with the offers that are made.

mod reading_tests;
mod recorder;
mod rows;
mod value_tests;
mod writing_tests;
