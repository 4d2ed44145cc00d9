//! How readers and writers move bytes, are interrupted and fail.
ghost use Rattle.std.specs.Prelude.{◌≡◌, ◌≤◌, IfOk};

use std::cmp::min;
use std::io::ErrorKind;

/// How bytes are moved: at most `step` bytes a call, and `room` bytes in all. A call that can move no bytes fails with
/// an error of the kind `behind`, if there is one, and otherwise moves nothing. After `flushes` flushes, each flush
/// fails with `behind`, if there is one.
#[derive(Clone, Copy, Debug)]
pub struct Manner {
    pub step: usize,
    pub room: usize,
    pub flushes: usize,
    pub behind: Option<ErrorKind>,
    /// If true, each call that moves bytes is interrupted once first.
    pub interrupts: bool,
    /// If true, each flush is interrupted once first.
    pub interrupts_flushes: bool,
}

/// Each call moves all bytes that it can.
pub const AT_ONCE: Manner = Manner {
    step: usize::MAX,
    room: usize::MAX,
    flushes: usize::MAX,
    behind: None,
    interrupts: false,
    interrupts_flushes: false,
};

/// The result of the last call before the first call: neither an end nor a failure.
pub const NO_CALL: Result<usize, ErrorKind> = Err(ErrorKind::Interrupted);

impl Manner {
    /// Returns the same manner with `room` bytes in all, and with this failure after them, or none.
    pub fn ending(self, room: usize, behind: Option<ErrorKind>) -> Manner
        ensures { result ≡ record self { room = room; behind = behind } }
    {
        Manner {
            room,
            behind,
            ..self
        }
    }

    /// Returns the number of bytes that a call moves, if it may move `most` and `moved` bytes were moved before.
    pub(crate) fn count(&self, moved: usize, most: usize) -> Result<usize, ErrorKind>
        ensures { IfOk result (λ n. n ≤ most) }
    {
        let left = self.room.saturating_sub(moved);
        match (min(self.step, min(left, most)), self.behind) {
            (0, Some(kind)) => Err(kind),
            (count, _) => Ok(count),
        }
    }
}

/// Interrupts a call if `interrupts` is set and the call before wasn't interrupted.
pub(crate) fn interrupt(interrupts: bool, interrupted: &mut bool) -> Result<(), ErrorKind> {
    *interrupted = interrupts && !*interrupted;
    if *interrupted {
        return Err(ErrorKind::Interrupted);
    }
    Ok(())
}
