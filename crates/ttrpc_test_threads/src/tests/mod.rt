mod attack_tests;
mod call_tests;
mod crew_tests;
mod room_tests;

use std::test::Fail;

/// Nothing, or the reason why a test ended.
type Tested = Result<(), Fail>;
