//! The messages of task.proto.
//! Written by tools/messages --each -I ../../tools/trees/containerd/src -I ../../tools/trees/containerd/gogo from ../../tools/trees/containerd/src/github.com/containerd/containerd/api/types/task/task.proto: change that, and run the tool.

use std::alloc::{AllocError, Global};
use ttrpc_members::item::{Boolean, Int32, Nested, Uint32, Utf8};
use ttrpc_members::kind::{MemberKind, Optional, Single};
use ttrpc_members::named::Named;
use ttrpc_members::several::{clone_four, clone_two, write_eight, write_two};
use ttrpc_well_known::messages::{Any, Timestamp};
use ttrpc_wire::codec::message::WireMessage;
use ttrpc_wire::{CodecError, Field, FieldNumber, Text, TryClone};

/// The number of `UNKNOWN` of the enum `containerd.v1.types.Status`.
pub const STATUS_UNKNOWN: i32 = 0;

/// The number of `CREATED` of the enum `containerd.v1.types.Status`.
pub const STATUS_CREATED: i32 = 1;

/// The number of `RUNNING` of the enum `containerd.v1.types.Status`.
pub const STATUS_RUNNING: i32 = 2;

/// The number of `STOPPED` of the enum `containerd.v1.types.Status`.
pub const STATUS_STOPPED: i32 = 3;

/// The number of `PAUSED` of the enum `containerd.v1.types.Status`.
pub const STATUS_PAUSED: i32 = 4;

/// The number of `PAUSING` of the enum `containerd.v1.types.Status`.
pub const STATUS_PAUSING: i32 = 5;

/// The message `containerd.v1.types.Process`.
#[derive(Drop)]
pub struct Process {
    /// Field 1.
    pub container_id: Text,
    /// Field 2.
    pub id: Text,
    /// Field 3.
    pub pid: u32,
    /// Field 4.
    pub status: i32,
    /// Field 5.
    pub stdin: Text,
    /// Field 6.
    pub stdout: Text,
    /// Field 7.
    pub stderr: Text,
    /// Field 8.
    pub terminal: bool,
    /// Field 9.
    pub exit_status: u32,
    /// Field 10.
    pub exited_at: Option<Timestamp>,
}

const PROCESS_CONTAINER_ID: FieldNumber = FieldNumber { value: 1 };

const PROCESS_ID: FieldNumber = FieldNumber { value: 2 };

const PROCESS_PID: FieldNumber = FieldNumber { value: 3 };

const PROCESS_STATUS: FieldNumber = FieldNumber { value: 4 };

const PROCESS_STDIN: FieldNumber = FieldNumber { value: 5 };

const PROCESS_STDOUT: FieldNumber = FieldNumber { value: 6 };

const PROCESS_STDERR: FieldNumber = FieldNumber { value: 7 };

const PROCESS_TERMINAL: FieldNumber = FieldNumber { value: 8 };

const PROCESS_EXIT_STATUS: FieldNumber = FieldNumber { value: 9 };

const PROCESS_EXITED_AT: FieldNumber = FieldNumber { value: 10 };

impl TryClone for Process {
    fn try_clone(&self) -> Result<Process, AllocError> {
        let (container_id, id) = clone_two::<Single<Utf8>, Single<Utf8>>(
            &self.container_id,
            &self.id,
        )?;
        let (stdin, stdout, stderr, exited_at) = clone_four::<
            Single<Utf8>,
            Single<Utf8>,
            Single<Utf8>,
            Optional<Nested<Timestamp>>,
        >(&self.stdin, &self.stdout, &self.stderr, &self.exited_at)?;
        Ok(Process {
            container_id,
            id,
            pid: self.pid,
            status: self.status,
            stdin,
            stdout,
            stderr,
            terminal: self.terminal,
            exit_status: self.exit_status,
            exited_at,
        })
    }
}

impl WireMessage for Process {
    ghost use Rattle.containerd_v1_types_task.specs.Messages.{process};

    ghost is_value = { process.part.is_value };

    ghost empty = { process.part.empty };

    ghost step = { process.part.step };

    ghost fields = { process.part.fields };

    fn new(alloc: Global) -> Process {
        Process {
            container_id: Single::<Utf8>::empty(alloc),
            id: Single::<Utf8>::empty(alloc),
            pid: Single::<Uint32>::empty(alloc),
            status: Single::<Int32>::empty(alloc),
            stdin: Single::<Utf8>::empty(alloc),
            stdout: Single::<Utf8>::empty(alloc),
            stderr: Single::<Utf8>::empty(alloc),
            terminal: Single::<Boolean>::empty(alloc),
            exit_status: Single::<Uint32>::empty(alloc),
            exited_at: Optional::<Nested<Timestamp>>::empty(alloc),
        }
    }

    fn put(&mut self, alloc: Global, field: Field<'_>) -> Result<(), CodecError> {
        match field.number.value {
            1 => Single::<Utf8>::take(&mut self.container_id, alloc, field.value),
            2 => Single::<Utf8>::take(&mut self.id, alloc, field.value),
            3 => Single::<Uint32>::take(&mut self.pid, alloc, field.value),
            4 => Single::<Int32>::take(&mut self.status, alloc, field.value),
            5 => Single::<Utf8>::take(&mut self.stdin, alloc, field.value),
            6 => Single::<Utf8>::take(&mut self.stdout, alloc, field.value),
            7 => Single::<Utf8>::take(&mut self.stderr, alloc, field.value),
            8 => Single::<Boolean>::take(&mut self.terminal, alloc, field.value),
            9 => Single::<Uint32>::take(&mut self.exit_status, alloc, field.value),
            10 => Optional::<Nested<Timestamp>>::take(&mut self.exited_at, alloc, field.value),
            _ => Ok(()),
        }
    }

    #[tactic(auto, using(ttrpc_members::proofs::Groups::flat_measured))]
    fn length(&self) -> u64 {
        let len: u64 = 0;
        let len = len.saturating_add(Single::<Utf8>::length(
            &self.container_id,
            PROCESS_CONTAINER_ID,
        ));
        let len = len.saturating_add(Single::<Utf8>::length(&self.id, PROCESS_ID));
        let len = len.saturating_add(Single::<Uint32>::length(&self.pid, PROCESS_PID));
        let len = len.saturating_add(Single::<Int32>::length(&self.status, PROCESS_STATUS));
        let len = len.saturating_add(Single::<Utf8>::length(&self.stdin, PROCESS_STDIN));
        let len = len.saturating_add(Single::<Utf8>::length(&self.stdout, PROCESS_STDOUT));
        let len = len.saturating_add(Single::<Utf8>::length(&self.stderr, PROCESS_STDERR));
        let len = len.saturating_add(Single::<Boolean>::length(&self.terminal, PROCESS_TERMINAL));
        let len = len.saturating_add(Single::<Uint32>::length(
            &self.exit_status,
            PROCESS_EXIT_STATUS,
        ));
        len.saturating_add(Optional::<Nested<Timestamp>>::length(
            &self.exited_at,
            PROCESS_EXITED_AT,
        ))
    }

    #[tactic(auto, using(ttrpc_members::proofs::Groups::flat_written, ttrpc_members::proofs::Groups::flat_len))]
    fn write(&self, out: &mut Vec<u8>) -> Result<(), CodecError> {
        write_eight::<
            Single<Utf8>,
            Single<Utf8>,
            Single<Uint32>,
            Single<Int32>,
            Single<Utf8>,
            Single<Utf8>,
            Single<Utf8>,
            Single<Boolean>,
        >(
            (&self.container_id, PROCESS_CONTAINER_ID),
            (&self.id, PROCESS_ID),
            (&self.pid, PROCESS_PID),
            (&self.status, PROCESS_STATUS),
            (&self.stdin, PROCESS_STDIN),
            (&self.stdout, PROCESS_STDOUT),
            (&self.stderr, PROCESS_STDERR),
            (&self.terminal, PROCESS_TERMINAL),
            out,
        )?;
        write_two::<Single<Uint32>, Optional<Nested<Timestamp>>>(
            (&self.exit_status, PROCESS_EXIT_STATUS),
            (&self.exited_at, PROCESS_EXITED_AT),
            out,
        )
    }

    fn lemma_is_value(&self) {
        Single::<Utf8>::lemma_is_value(&self.container_id);
        Single::<Utf8>::lemma_is_value(&self.id);
        Single::<Uint32>::lemma_is_value(&self.pid);
        Single::<Int32>::lemma_is_value(&self.status);
        Single::<Utf8>::lemma_is_value(&self.stdin);
        Single::<Utf8>::lemma_is_value(&self.stdout);
        Single::<Utf8>::lemma_is_value(&self.stderr);
        Single::<Boolean>::lemma_is_value(&self.terminal);
        Single::<Uint32>::lemma_is_value(&self.exit_status);
        Optional::<Nested<Timestamp>>::lemma_is_value(&self.exited_at);
    }

    ghost again = { process.laws.again process.valid };

    ghost fits = { process.laws.fits process.valid };
}

impl Named for Process {
    ghost use Rattle.std.specs.Prelude.{codes};

    ghost full_name = { codes "containerd.v1.types.Process" };

    fn full_name() -> &'static str {
        "containerd.v1.types.Process"
    }
}

/// The message `containerd.v1.types.ProcessInfo`.
#[derive(Drop)]
pub struct ProcessInfo {
    /// Field 1.
    pub pid: u32,
    /// Field 2.
    pub info: Option<Any>,
}

const PROCESS_INFO_PID: FieldNumber = FieldNumber { value: 1 };

const PROCESS_INFO_INFO: FieldNumber = FieldNumber { value: 2 };

impl TryClone for ProcessInfo {
    fn try_clone(&self) -> Result<ProcessInfo, AllocError> {
        let info = Optional::<Nested<Any>>::try_clone(&self.info)?;
        Ok(ProcessInfo {
            pid: self.pid,
            info,
        })
    }
}

impl WireMessage for ProcessInfo {
    ghost use Rattle.containerd_v1_types_task.specs.Messages.{process_info};

    ghost is_value = { process_info.part.is_value };

    ghost empty = { process_info.part.empty };

    ghost step = { process_info.part.step };

    ghost fields = { process_info.part.fields };

    fn new(alloc: Global) -> ProcessInfo {
        ProcessInfo {
            pid: Single::<Uint32>::empty(alloc),
            info: Optional::<Nested<Any>>::empty(alloc),
        }
    }

    fn put(&mut self, alloc: Global, field: Field<'_>) -> Result<(), CodecError> {
        match field.number.value {
            1 => Single::<Uint32>::take(&mut self.pid, alloc, field.value),
            2 => Optional::<Nested<Any>>::take(&mut self.info, alloc, field.value),
            _ => Ok(()),
        }
    }

    #[tactic(auto, using(ttrpc_members::proofs::Groups::flat_measured))]
    fn length(&self) -> u64 {
        let len: u64 = 0;
        let len = len.saturating_add(Single::<Uint32>::length(&self.pid, PROCESS_INFO_PID));
        len.saturating_add(Optional::<Nested<Any>>::length(&self.info, PROCESS_INFO_INFO))
    }

    #[tactic(auto, using(ttrpc_members::proofs::Groups::flat_written, ttrpc_members::proofs::Groups::flat_len))]
    fn write(&self, out: &mut Vec<u8>) -> Result<(), CodecError> {
        Single::<Uint32>::write(&self.pid, PROCESS_INFO_PID, out)?;
        Optional::<Nested<Any>>::write(&self.info, PROCESS_INFO_INFO, out)
    }

    fn lemma_is_value(&self) {
        Single::<Uint32>::lemma_is_value(&self.pid);
        Optional::<Nested<Any>>::lemma_is_value(&self.info);
    }

    ghost again = { process_info.laws.again process_info.valid };

    ghost fits = { process_info.laws.fits process_info.valid };
}

impl Named for ProcessInfo {
    ghost use Rattle.std.specs.Prelude.{codes};

    ghost full_name = { codes "containerd.v1.types.ProcessInfo" };

    fn full_name() -> &'static str {
        "containerd.v1.types.ProcessInfo"
    }
}
