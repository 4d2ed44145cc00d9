//! Hooks, their errors and their time limit; the data of a connection, and its context; halves that mask, and halves
//! that stamp.
mod binding_tests;
mod context_tests;
mod data_tests;
mod error_tests;
mod fakes;
mod hook_tests;
mod masking;
mod masking_tests;
mod packet;
mod queue_tests;
mod stamp_tests;
