mod address_tests;
mod closing_tests;
mod pairs;
mod refusal_tests;
mod socket_tests;
