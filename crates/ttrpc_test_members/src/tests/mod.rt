mod depth_tests;
mod members_tests;
mod vectors;
mod well_known_tests;
mod well_known_vectors;
