mod alone_tests;
mod sites;
mod talks_tests;
