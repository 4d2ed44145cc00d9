mod decoder_tests;
mod halves_tests;
mod queue_tests;
mod ring_tests;
mod rows;
mod secure;
mod streams;
