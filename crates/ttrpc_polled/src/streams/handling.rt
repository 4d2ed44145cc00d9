//! The method of a service, as the call of a handler.
ghost use Rattle.std.specs.Prelude.{◌≡◌, IfErr, IfOk};
ghost use Rattle.ttrpc_message.specs.Calls.{AnswersWith, IsUnanswered};
ghost use Rattle.ttrpc_polled.specs.Streams.Handling.{TellsClosing, TellsStreamed};

use futures::Future;
use futures::task::{Context, Poll};
use std::alloc::Global;
use std::fmt::Display;
use std::marker::PhantomData;
use std::mem::replace;
use ttrpc_message::calls::response_of;
use ttrpc_proto::{Error, Response, Result};
use ttrpc_wire::Codec;

/// A conversion of the result of a service's method to the result of its handler.
pub trait Telling {
    ghost use Rattle.std.specs.Prelude.{Result};
    ghost use Rattle.ttrpc_proto.specs.declared.error.Error.{Error};

    /// The value of the method.
    type Given: Drop;
    /// The value of the handler.
    type Told: Drop;

    // The method's result is converted to this result of the handler.
    ghost tells: { Result Self.Given Error → Result Self.Told Error → Type 0 };

    fn told(alloc: Global, given: Result<Self::Given>) -> Result<Self::Told>
        ensures { tells given result };
}

/// The conversion of a method's value to a response.
#[derive(Drop)]
pub struct Responds<P> {
    value: PhantomData<P>,
}

impl<P: Codec + Drop> Telling for Responds<P>
where
    P::E: Display + Drop,
{
    ghost use Rattle.std.specs.Prelude.{IfErr, IfOk};
    ghost use Rattle.ttrpc_message.specs.Calls.{AnswersWith, IsUnanswered};

    type Given = P;

    type Told = Response;

    ghost tells = { λ given told. IfOk told (AnswersWith P.written P.meaning given)
        × IfErr told (IsUnanswered P.written P.E.is_no_memory P.E.output given) };

    fn told(alloc: Global, given: Result<P>) -> Result<Response>
        ensures { IfOk result (AnswersWith P.written P.meaning given)
            × IfErr result (IsUnanswered P.written P.E.is_no_memory P.E.output given) }
    {
        response_of(alloc, given)
    }
}

/// The conversion of a method's value to the response that ends a stream.
#[derive(Drop)]
pub struct EndsBy<P> {
    value: PhantomData<P>,
}

impl<P: Codec + Drop> Telling for EndsBy<P>
where
    P::E: Display + Drop,
{
    ghost use Rattle.ttrpc_polled.specs.Streams.Handling.{TellsStreamed};

    type Given = P;

    type Told = Option<Response>;

    ghost tells = { TellsStreamed P.written P.meaning P.E.is_no_memory P.E.output };

    fn told(alloc: Global, given: Result<P>) -> Result<Option<Response>>
        ensures { TellsStreamed P.written P.meaning P.E.is_no_memory P.E.output given result }
    {
        match response_of(alloc, given) {
            Ok(response) => Ok(Some(response)),
            Err(error) => Err(error),
        }
    }
}

/// The conversion of a method's end to the close of a stream, and of its error to a status that
/// ends the stream.
#[derive(Drop)]
pub struct Closes {}

impl Telling for Closes {
    ghost use Rattle.ttrpc_polled.specs.Streams.Handling.{TellsClosing};

    type Given = ();

    type Told = Option<Response>;

    ghost tells = { TellsClosing };

    fn told(alloc: Global, given: Result<()>) -> Result<Option<Response>>
        ensures { TellsClosing given result }
    {
        match given {
            Ok(()) => Ok(None),
            Err(error) => Ok(Some(error.try_into_response(alloc)?)),
        }
    }
}

/// The state of a handler's call.
#[derive(Drop)]
pub enum HandlingAt<F> {
    /// The service's method runs.
    Runs(F),
    /// The request meant no value.
    Refused(Error),
    /// The call has ended.
    Done,
}

/// The call of a handler: a service's method runs, and `K` converts its result.
#[derive(Drop)]
pub struct Handling<F, K> {
    alloc: Global,
    at: HandlingAt<F>,
    telling: PhantomData<K>,
}

impl<F: Drop, K: Telling> Handling<F, K> {
    /// Makes the call that polls this method.
    pub fn runs(alloc: Global, call: F) -> Handling<F, K>
        ensures { result.at ≡ HandlingAt.Runs call }
    {
        Handling {
            alloc,
            at: HandlingAt::Runs(call),
            telling: PhantomData,
        }
    }

    /// Makes the call that ends at once with this error.
    pub fn refused(alloc: Global, error: Error) -> Handling<F, K>
        ensures { result.at ≡ HandlingAt.Refused error }
    {
        Handling {
            alloc,
            at: HandlingAt::Refused(error),
            telling: PhantomData,
        }
    }
}

impl<F, K> Future for Handling<F, K>
where
    K: Telling,
    F: Future<Output = Result<K::Given>>,
{
    type Output = Result<K::Told>;

    ghost use Rattle.ttrpc_polled.specs.Streams.Handling.{AtCanPoll, AtGives, AtNeeds};

    ghost can_poll = { λ h. AtCanPoll F.can_poll h.at };

    ghost needs = { λ h. AtNeeds F.needs h.at };

    ghost gives = { λ h. AtGives F.gives K.tells h.at };

    fn poll(&mut self, cx: &mut Context<'_>) -> Poll<Result<K::Told>> {
        match replace(&mut self.at, HandlingAt::Done) {
            HandlingAt::Runs(mut call) => match call.poll(cx) {
                Poll::Pending => {
                    self.at = HandlingAt::Runs(call);
                    Poll::Pending
                }
                Poll::Ready(given) => Poll::Ready(K::told(self.alloc, given)),
            },
            HandlingAt::Refused(error) => Poll::Ready(Err(error)),
            HandlingAt::Done => Poll::Ready(Err(Error::LocalClosed)),
        }
    }
}
