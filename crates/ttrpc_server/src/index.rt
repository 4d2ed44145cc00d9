//! The index of a server's jobs, by stream id and by deadline. Of the functions here only `add` takes memory.
ghost use Rattle.std.specs.Prelude.{◌≡◌, OnOk, OnErr, None};
ghost use Rattle.ttrpc_server.specs.Kept.{Finds, FindsTheSame, Loses, job_found, no_index};

use crate::job::JobId;
use std::alloc::{AllocError, Global};
use std::marker::Model;
use ttrpc_connection::deadlines::Deadlines;
use ttrpc_table::Table;

/// The active job of each stream id, and the deadlines of jobs, soonest first.
#[derive(Drop)]
pub(crate) struct Index {
    streams: Table<JobId>,
    deadlines: Deadlines,
}

impl Model for Index {
    ghost use Rattle.ttrpc_server.specs.Kept.{Indexed};

    ghost Value = { Indexed };

    ghost view = { λ a. record { streams = a.streams; deadlines = a.deadlines } };
}

impl Index {
    /// Returns an index without jobs.
    pub(crate) fn new(alloc: Global) -> Self
        ensures { result ≡ no_index }
    {
        Index {
            streams: Table::new(alloc),
            deadlines: Deadlines::new(alloc),
        }
    }

    /// Adds the job of this id, under a stream id that has none. At an `Err` all jobs are found as before.
    pub(crate) fn add(
        &mut self,
        stream_id: u32,
        id: JobId,
        deadline: Option<u128>,
    ) -> Result<(), AllocError>
        requires { job_found self.old stream_id ≡ None }
        ensures ok { OnOk result (Finds self.old stream_id id deadline self.new) }
        ensures err { OnErr result (FindsTheSame self.old self.new) }
    {
        self.streams.insert(u64::from(stream_id), id)?;
        if self.deadlines.add(id, deadline).is_err() {
            let _ = self.streams.remove(u64::from(stream_id));
            return Err(AllocError);
        }
        Ok(())
    }

    /// Removes the job of this id.
    pub(crate) fn take_away(&mut self, stream_id: u32, id: JobId, deadline: Option<u128>)
        ensures { Loses self.old stream_id id deadline self.new }
    {
        let _ = self.streams.remove(u64::from(stream_id));
        self.deadlines.take_away(id, deadline);
    }

    /// Returns the deadlines of jobs, soonest first.
    pub(crate) fn deadlines(&self) -> &Deadlines
        ensures { result.now ≡ self.now.deadlines }
    {
        &self.deadlines
    }

    /// Returns the active job of this stream id, if there is one.
    pub(crate) fn job_of(&self, stream_id: u32) -> Option<JobId>
        ensures { result ≡ job_found self.now stream_id }
    {
        self.streams.get(u64::from(stream_id)).copied()
    }
}
