//! How a test ends.
use std::test::Fail;

/// The result of a test.
pub type Tested = Result<(), Fail>;

/// Fails if the condition does not hold.
pub fn check(holds: bool) -> Tested {
    if holds {
        Ok(())
    } else {
        Err(Fail::new("a condition does not hold"))
    }
}
