//! The steps of a server's streams.
use crate::tests::script::Step;
use crate::tests::server_steps::{ok_response, status_of};
use crate::tests::steps::tells;
use crate::tests::stream_job_numbers::stream_jobs_last_first;
use crate::tests::stream_steps::item_step;
use crate::tests::under_test::{Met, Server};
use std::alloc::Global;
use ttrpc_bench::vectors::Told;
use ttrpc_proto::{Error, Response};
use ttrpc_server::JobId;
use ttrpc_wire::Blob;

/// The result with which a handler ends its stream.
pub type End = Result<Option<Response>, Error>;

/// Does a step of a stream's job. Returns whether it is met.
pub fn stream_job_step<S: Server>(alloc: Global, core: &mut S, step: &Step) -> Met {
    match *step {
        Step::TakesStream(id, stream) => Ok(takes_stream(core, id, stream)),
        Step::EndsStream(id) => ends(alloc, core, id, &Ok(None)),
        Step::EndsWith(id, payload) => ends_with(alloc, core, id, payload),
        Step::EndsWithSevens(id, length) => ends_with_sevens(alloc, core, id, length),
        Step::EndsBy(id, code, message) => ends_by(alloc, core, id, code, message),
        Step::EndsByError(id) => ends(alloc, core, id, &Err(Error::Eof)),
        Step::RefusesEnd(id, why) => refuses_end(alloc, core, id, why),
        Step::StreamJobsLastFirst(count) => stream_jobs_last_first(alloc, core, count),
        _ => item_step(alloc, core, step),
    }
}

/// Returns whether the job that is handed out is a stream's with this id and this stream, and has no payload.
pub fn takes_stream<S: Server>(core: &mut S, id: JobId, stream: u32) -> bool {
    match core.take_job() {
        Some(job) => {
            job.stream
                && job.id == id
                && job.header.stream_id == stream
                && job.request.payload.as_slice().is_empty()
        }
        None => false,
    }
}

/// Ends the stream with a response with this payload.
fn ends_with<S: Server>(alloc: Global, core: &mut S, id: JobId, payload: &[u8]) -> Met {
    let payload = Blob::from_slice(alloc, payload)?;
    ends(alloc, core, id, &Ok(Some(ok_response(alloc, payload))))
}

fn ends_with_sevens<S: Server>(alloc: Global, core: &mut S, id: JobId, length: usize) -> Met {
    let payload = Blob::from_vec(vec![in alloc; 7; length]?);
    ends(alloc, core, id, &Ok(Some(ok_response(alloc, payload))))
}

/// Ends the stream with a response with a status with this code and message, and no payload.
fn ends_by<S: Server>(alloc: Global, core: &mut S, id: JobId, code: i32, message: &str) -> Met {
    let response = Response {
        status: Some(status_of(alloc, code, message)?),
        payload: Blob::new(alloc),
    };
    ends(alloc, core, id, &Ok(Some(response)))
}

/// Ends the stream with this result.
pub fn ends<S: Server>(alloc: Global, core: &mut S, id: JobId, end: &End) -> Met {
    core.end_stream(alloc, id, end)?;
    Ok(true)
}

/// Returns whether each end of a stream is refused with this error: no response, a response and an error.
fn refuses_end<S: Server>(alloc: Global, core: &mut S, id: JobId, why: Told) -> Met {
    let response = ok_response(alloc, Blob::new(alloc));
    Ok(
        refuses(alloc, core, id, &Ok(None), why)?
            && refuses(alloc, core, id, &Ok(Some(response)), why)?
            && refuses(alloc, core, id, &Err(Error::Eof), why)?,
    )
}

fn refuses<S: Server>(alloc: Global, core: &mut S, id: JobId, end: &End, why: Told) -> Met {
    tells(core.end_stream(alloc, id, end).err(), why)
}
