//! Tests of the macros, of the functions that they call, and of the paths of the facade: rows over values, and a
//! service over a socket.

mod caller;
mod calls_tests;
mod huge;
mod items_tests;
mod messages;
mod names;
mod pairs;
mod socket_tests;
