mod call_tests;
mod faults_tests;
mod runs;
mod runs_tests;
mod vectors;

use std::test::Fail;

/// Nothing, or the reason why a test ended.
type Tested = Result<(), Fail>;

/// True if a row holds, or the reason why a test ended.
type Holds = Result<bool, Fail>;
