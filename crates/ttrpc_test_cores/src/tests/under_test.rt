//! Either core, as scripts see it, and the runs of scripts.
use crate::tests::script::{Cuts, Row, Start, Step};
use crate::tests::stamps::Stamps;
use crate::tests::steps::{act, act_stamped};
use std::alloc::Global;
use std::process::Abort;
use std::test::Fail;
use ttrpc_client::{CallId, StreamId, Ticket};
use ttrpc_proto::{Error, Request, Response};
use ttrpc_server::{Job, JobId};
use ttrpc_wire::Blob;

/// Nothing, or the reason why a test ended.
pub type Tested = Result<(), Fail>;

/// True if a step was met, or the reason why a test ended before.
pub type Met = Result<bool, Fail>;

/// The id of a stream that was opened, or the error.
pub type Opened = Result<StreamId, Error>;

/// The calls of either core as one end of a connection.
pub trait End {
    fn feed(&mut self, alloc: Global, piece: &[u8]) -> Result<usize, Error>;

    fn lend(&mut self, buffer: &mut [u8]) -> usize;

    fn lent(&self) -> usize;

    /// Reports all lent bytes as written.
    fn report(&mut self);

    fn end_of_input(&mut self);

    fn fail(&mut self, error: Error);

    fn failure(&self, alloc: Global) -> Option<Error>;

    fn at_boundary(&self) -> bool;
}

/// The calls of either core on streams. A client's streams have their own ids, and a server's have those of their jobs.
pub trait Items: End {
    fn send(&mut self, alloc: Global, id: u32, item: &[u8]) -> Result<Ticket, Error>;

    fn recv(&mut self, alloc: Global, id: u32) -> Option<Result<Blob, Error>>;

    fn drop_receiver(&mut self, id: u32);

    fn sent(&self, alloc: Global, ticket: Ticket) -> Option<Result<(), Error>>;

    fn next_heard(&mut self) -> Option<u32>;
}

/// The other calls of a server.
pub trait Server: Items {
    fn feed_at(&mut self, alloc: Global, piece: &[u8], now: u64) -> Result<usize, Error>;

    fn feed_front(&mut self, alloc: Global, piece: &[u8]) -> Result<usize, Error>;

    fn take_job(&mut self) -> Option<Job>;

    fn answer(
        &mut self,
        alloc: Global,
        id: JobId,
        answer: &Result<Response, Error>,
    ) -> Result<(), Error>;

    fn respond(&mut self, alloc: Global, stream_id: u32, response: &Response) -> Result<(), Error>;

    fn finish(&mut self, alloc: Global, id: JobId) -> Result<(), Error>;

    fn end_stream(
        &mut self,
        alloc: Global,
        id: JobId,
        end: &Result<Option<Response>, Error>,
    ) -> Result<(), Error>;

    fn tick(&mut self, alloc: Global, now: u64);

    fn next_deadline(&self) -> Option<u64>;

    fn next_expired(&mut self) -> Option<JobId>;

    fn stream_of(&self, id: JobId) -> Option<u32>;

    fn jobs_waiting(&self) -> u64;

    fn jobs_taken(&self) -> u64;

    fn has_unsent(&self) -> bool;

    fn drain(&mut self);
}

/// The other calls of a client.
pub trait Client: End {
    fn request(&mut self, alloc: Global, request: &Request, now: u64) -> Result<CallId, Error>;

    fn take_outcome(&mut self, alloc: Global, id: CallId) -> Option<Result<Response, Error>>;

    fn drop_call(&mut self, id: CallId);

    fn tick(&mut self, now: u64);

    fn next_ended(&mut self) -> Option<CallId>;

    fn next_deadline(&self) -> Option<u64>;
}

/// The other calls of a client on streams.
pub trait Streaming: Client + Items {
    fn new_stream(&mut self, alloc: Global, request: &Request, sends: bool, hears: bool) -> Opened;

    fn close_send(&mut self, alloc: Global, id: StreamId) -> Result<Ticket, Error>;

    fn drop_sender(&mut self, id: StreamId);
}

/// Either core.
pub trait Core: End + Sized + Drop {
    /// The kinds of such a core.
    type Kind: Copy;

    fn start(alloc: Global, kind: Self::Kind, start: Start) -> Result<Self, Fail>;

    /// Returns the error with which the core refuses to be used, or `None` if it doesn't.
    fn refusal(&mut self, alloc: Global) -> Result<Option<Error>, Fail>;

    /// Takes the first bytes in pieces of this size. After each piece each job is answered with its own payload, and
    /// the second bytes are written then. A core without jobs serves nothing.
    fn serves(&mut self, alloc: Global, bytes: &[u8], size: usize, expected: &[u8]) -> Met;

    /// Takes these bytes at this moment, in pieces of this size. A core that isn't fed with a moment takes none.
    fn feeds_at(&mut self, alloc: Global, bytes: &[u8], now: u64, size: usize) -> Met;

    /// Does a step that only this core has. Returns whether it is met.
    fn own_step(&mut self, alloc: Global, step: &Step, cut: usize) -> Met;
}

/// Kinds of a core, and the rows that hold for each of them.
pub type Table<K> = (&'static [K], &'static [Row]);

/// The form of frames on the wire.
#[derive(Clone, Copy, PartialEq, Eq)]
pub enum Form {
    AsTheyStand,
    Stamped,
}

/// Checks that each table holds.
pub fn hold<C: Core>(rt: &impl Abort, alloc: Global, tables: &[Table<C::Kind>]) -> Tested {
    hold_as::<C>(rt, alloc, tables, Form::AsTheyStand)
}

/// Checks that each table holds over halves that stamp. Its frames come and leave with their stamps.
pub fn hold_stamped<C: Core>(rt: &impl Abort, alloc: Global, tables: &[Table<C::Kind>]) -> Tested {
    hold_as::<C>(rt, alloc, tables, Form::Stamped)
}

fn hold_as<C: Core>(
    rt: &impl Abort,
    alloc: Global,
    tables: &[Table<C::Kind>],
    form: Form,
) -> Tested {
    for (kinds, rows) in tables {
        for kind in *kinds {
            for row in *rows {
                holds::<C>(rt, alloc, *kind, row, form)?;
            }
        }
    }
    Ok(())
}

/// Checks that the row holds in all its cuts.
fn holds<C: Core>(rt: &impl Abort, alloc: Global, kind: C::Kind, row: &Row, form: Form) -> Tested {
    match row.cuts {
        Cuts::Whole => holds_at::<C>(rt, alloc, kind, row, usize::MAX, form),
        Cuts::WholeAndBytes => {
            holds_at::<C>(rt, alloc, kind, row, usize::MAX, form)?;
            holds_at::<C>(rt, alloc, kind, row, 1, form)
        }
        Cuts::Inside(length) => {
            for cut in 1..length {
                holds_at::<C>(rt, alloc, kind, row, cut, form)?;
            }
            Ok(())
        }
    }
}

/// Checks that the row holds for a new core, at this cut.
fn holds_at<C: Core>(
    rt: &impl Abort,
    alloc: Global,
    kind: C::Kind,
    row: &Row,
    cut: usize,
    form: Form,
) -> Tested {
    let mut core = C::start(alloc, kind, row.start)?;
    let unmet = match form {
        Form::AsTheyStand => first_unmet(alloc, &mut core, row, cut)?,
        Form::Stamped => first_unmet_stamped(alloc, &mut core, row, cut)?,
    };
    assert!(rt;
        unmet.is_none(),
        "{}: {unmet:?} isn't met, cut at {cut}",
        row.name
    );
    Ok(())
}

/// Returns the number of the first step that isn't met, if there is one.
fn first_unmet<C: Core>(
    alloc: Global,
    core: &mut C,
    row: &Row,
    cut: usize,
) -> Result<Option<usize>, Fail> {
    for (number, step) in row.steps.iter().enumerate() {
        if !act(alloc, core, step, cut)? {
            return Ok(Some(number));
        }
    }
    Ok(None)
}

/// Returns the same over halves that stamp.
fn first_unmet_stamped<C: Core>(
    alloc: Global,
    core: &mut C,
    row: &Row,
    cut: usize,
) -> Result<Option<usize>, Fail> {
    let mut stamps = Stamps {
        comes: 0,
        leaves: 0,
    };
    for (number, step) in row.steps.iter().enumerate() {
        if !act_stamped(alloc, core, step, cut, &mut stamps)? {
            return Ok(Some(number));
        }
    }
    Ok(None)
}
