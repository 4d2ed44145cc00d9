//! The reasons why a hook rejects a connection.
ghost use Rattle.std.specs.Prelude.{None};
ghost use Rattle.std.specs.Fmt.{DisplaysOnOk, DisplaysStyledOnOk};
ghost use Rattle.ttrpc_secure.specs.Hooks.{IsHookErrorDebug, IsHookErrorText, WritesSuch, hook_error_debug, hook_error_text};

use std::alloc::{AllocError, AllocFailed};
use std::fmt::InlineText;
use std::{fmt, io};
use ttrpc_proto::Text;

/// The reason why a hook rejects a connection.
#[derive(Drop)]
pub enum HookError {
    /// The hook refuses the connection, for this reason.
    Rejected(Text),
    /// The hook's result came too late.
    Timeout,
    /// A read or a write of the connection failed, or a reading of the clock, or memory was refused.
    Io(io::Error),
    /// Any other reason.
    Other(Text),
}

/// Converts refused memory into an I/O error of the kind `OutOfMemory`, which takes no memory.
impl From<AllocError> for HookError {
    ghost use Rattle.ttrpc_secure.specs.Hooks.{IsRefusedMemory};

    ghost from_gives = { λ _ e. IsRefusedMemory e };

    fn from(refused: AllocError) -> HookError {
        HookError::Io(io::Error::from(refused))
    }
}

impl<T: Drop> From<AllocFailed<T>> for HookError {
    ghost use Rattle.ttrpc_secure.specs.Hooks.{IsRefusedMemory};

    ghost from_gives = { λ _ e. IsRefusedMemory e };

    fn from(refused: AllocFailed<T>) -> HookError {
        HookError::Io(io::Error::from(refused))
    }
}

// The greatest number of bytes in the text of an I/O error. A longer text is cut and ends in dots.
const TEXT_ROOM: usize = 512;

impl fmt::Display for HookError {
    ghost output = { hook_error_text };

    fn fmt<W: fmt::Write>(&self, f: &mut fmt::Formatter<W>) -> fmt::Result
        ensures writes { DisplaysOnOk W.write_str_gives f.old result
            (hook_error_text self.now) f.new }
        ensures styled { DisplaysStyledOnOk W.write_str_gives f.old result None f.new }
        ensures such { WritesSuch W.write_str_gives (IsHookErrorText self.now) f.old result f.new }
    {
        match self {
            HookError::Rejected(reason) => write!(f, "connection rejected: {}", reason.as_str()),
            HookError::Timeout => write!(f, "handshake timeout"),
            HookError::Io(error) => {
                // std doesn't state this text. The text is printed by itself, so that the bytes before it are known.
                let text = InlineText::<TEXT_ROOM>::of(error);
                write!(f, "I/O error: {}", text.as_str())
            }
            HookError::Other(text) => write!(f, "{}", text.as_str()),
        }
    }
}

/// Prints texts without quotes.
impl fmt::Debug for HookError {
    ghost debug_output = { hook_error_debug };

    fn fmt<W: fmt::Write>(&self, f: &mut fmt::Formatter<W>) -> fmt::Result
        ensures writes { DisplaysOnOk W.write_str_gives f.old result
            (hook_error_debug self.now) f.new }
        ensures such { WritesSuch W.write_str_gives (IsHookErrorDebug self.now) f.old result f.new }
    {
        match self {
            HookError::Rejected(reason) => write!(f, "Rejected({})", reason.as_str()),
            HookError::Timeout => write!(f, "Timeout"),
            HookError::Io(error) => {
                let text = InlineText::<TEXT_ROOM>::of(format_args!("{error:?}"));
                write!(f, "Io({})", text.as_str())
            }
            HookError::Other(text) => write!(f, "Other({})", text.as_str()),
        }
    }
}

impl std::error::Error for HookError {}
