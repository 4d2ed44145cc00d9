mod frames;
mod recorded_tests;
mod stepped;
mod stepped_tests;
