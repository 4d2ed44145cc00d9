//! How a handler ended.
ghost use Rattle.std.specs.Prelude.{◌≡◌, true, false};
ghost use Rattle.ttrpc_polled_server.specs.Steps.{IsDisconnect, IsEnded, failed_by};

use std::alloc::Global;
use ttrpc_proto::{Error, Response, Result};
use ttrpc_secure::{InboundTransform, OutboundTransform};
use ttrpc_server::{JobId, ServerCore};

/// The end of a handler, which names the core call that reports it.
#[derive(Debug, Drop)]
pub enum Ended {
    /// The handler answered a request: `answer`.
    Answers(Result<Response>),
    /// The handler ended a stream: `end_stream`.
    Ends(Result<Option<Response>>),
    /// The handler was dropped, because its job had expired or its client was gone: no call.
    Dropped,
}

impl Ended {
    /// Makes the one core call for the job of this number. A refusal changes nothing.
    pub fn step<O: OutboundTransform + Drop, I: InboundTransform + Drop>(
        &self,
        alloc: Global,
        core: &mut ServerCore<O, I>,
        id: JobId,
    ) -> Result<()>
        ensures { IsEnded O.OutboundTransform core.old id self.now result core.new }
    {
        match self {
            Ended::Answers(response) => core.answer(alloc, id, response),
            Ended::Ends(end) => core.end_stream(alloc, id, end),
            Ended::Dropped => Ok(()),
        }
    }

    /// Returns whether a stream's handler ended with the error that a receiver gets after the end of the input.
    pub fn is_disconnect(&self) -> bool
        ensures yes { result ≡ true → IsDisconnect self.now }
        ensures no { result ≡ false → ¬ (IsDisconnect self.now) }
    {
        match self {
            Ended::Ends(Err(Error::Socket(text))) => {
                text.as_str() == "socket disconnected"
                    || text.as_str() == "socket disconnected inside a frame"
            }
            _ => false,
        }
    }

    /// Returns the same handler's end, with an error in place of its result.
    pub fn failed(&self, error: Error) -> Ended
        ensures { result ≡ failed_by self.now error }
    {
        match self {
            Ended::Answers(_) => Ended::Answers(Err(error)),
            Ended::Ends(_) => Ended::Ends(Err(error)),
            Ended::Dropped => Ended::Dropped,
        }
    }
}
