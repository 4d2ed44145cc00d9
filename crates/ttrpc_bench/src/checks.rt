//! How a test fails.
use std::test::Fail;

/// The result of a test.
pub type Tested = Result<(), Fail>;

/// Fails if the condition does not hold.
pub fn check(holds: bool) -> Tested {
    check_named("a condition does not hold", holds)
}

/// Fails with this text if the condition does not hold.
pub fn check_named(text: &str, holds: bool) -> Tested {
    if holds { Ok(()) } else { Err(Fail::new(text)) }
}

/// Fails with the row's number if the condition does not hold. The first row is number 0.
pub fn check_row(number: usize, holds: bool) -> Tested {
    check_named_row("a condition does not hold at row", number, holds)
}

/// Fails with this text and number if the condition does not hold.
pub fn check_named_row(text: &str, number: usize, holds: bool) -> Tested {
    if holds {
        Ok(())
    } else {
        Err(Fail::new(format_args!("{text} {number}")))
    }
}
