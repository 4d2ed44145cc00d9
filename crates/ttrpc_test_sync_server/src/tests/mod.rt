mod ending_tests;
mod hook_tests;
mod settings_tests;
mod watch_tests;

use std::test::Fail;

/// Nothing, or the reason why a test ended.
type Tested = Result<(), Fail>;
