mod bytes_tests;
mod peers;
mod runs;
mod words_tests;
