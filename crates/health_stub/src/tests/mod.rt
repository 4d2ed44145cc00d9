mod answers_tests;
mod events;
mod run_tests;
mod worlds;
