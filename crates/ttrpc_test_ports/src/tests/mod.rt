mod client_tests;
mod ends;
mod failing_tests;
mod server_tests;
mod thread_tests;
mod turn_tests;
mod writing_tests;
