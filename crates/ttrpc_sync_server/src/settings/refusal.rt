//! The reasons for which a server refuses a call, and the text of each refusal.
ghost use Rattle.std.specs.Prelude.{◌≡◌, ◌⊎◌};
ghost use Rattle.ttrpc_proto.specs.declared.error.Error.{Error as AnError};
ghost use Rattle.ttrpc_sync_server.specs.Settings.{text_of};

use std::alloc::Global;
use ttrpc_proto::Error;
use ttrpc_wire::Text;

/// The reason for which a server refuses a call.
#[derive(Clone, Copy, Debug, PartialEq, Eq)]
pub enum Refusal {
    /// The default count of workers isn't below the greatest.
    NotBelowMax,
    /// The default count of workers isn't above the least.
    NotAboveMin,
    /// The server has an address already.
    SecondAddress,
    /// The server has no address.
    NotBound,
    /// The server listens already.
    Listening,
    /// The server has started, so its services are fixed.
    Started,
}

impl Refusal {
    fn text(self) -> &'static str
        ensures { result.now ≡ text_of self }
    {
        match self {
            Refusal::NotBelowMax => "thread_count_default should smaller than thread_count_max",
            Refusal::NotAboveMin => "thread_count_default should bigger than thread_count_min",
            Refusal::SecondAddress => "ttrpc-rust just support 1 sockaddr now",
            Refusal::NotBound => "ttrpc-rust not bind",
            Refusal::Listening => "server is already listening",
            Refusal::Started => "services are fixed after start",
        }
    }

    /// Returns the error with the refusal's text, or `NoMemory` if memory for the text was refused.
    pub fn error(self, alloc: Global) -> Error
        ensures { (result ≡ AnError.Others (text_of self)) ⊎ (result ≡ AnError.NoMemory) }
    {
        match Text::from_str(alloc, self.text()) {
            Ok(text) => Error::Others(text),
            Err(_) => Error::NoMemory,
        }
    }
}
