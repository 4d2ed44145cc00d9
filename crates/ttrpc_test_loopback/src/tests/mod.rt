mod hook_tests;
mod pairs_tests;
mod peers;
mod polled;
mod room_tests;
mod socket_tests;
mod stop_tests;
