//! The messages of shim.proto.
//! Written by tools/messages --each -I ../../tools/trees/containerd/src -I ../../tools/trees/containerd/gogo from ../../tools/trees/containerd/src/github.com/containerd/containerd/api/runtime/task/v2/shim.proto: change that, and run the tool.

use containerd_types_mount::messages::Mount;
use containerd_v1_types_task::messages::ProcessInfo;
use std::alloc::{AllocError, Global};
use ttrpc_members::entries::MapOf;
use ttrpc_members::item::{Boolean, Int32, Nested, Uint32, Utf8};
use ttrpc_members::kind::{MemberKind, Optional, Repeated, Single};
use ttrpc_members::map::Map;
use ttrpc_members::named::Named;
use ttrpc_members::several::{
    clone_eight, clone_four, clone_two, write_eight, write_four, write_two,
};
use ttrpc_well_known::messages::{Any, Timestamp};
use ttrpc_wire::codec::message::WireMessage;
use ttrpc_wire::{CodecError, Field, FieldNumber, Sequence, Text, TryClone};

/// The message `containerd.task.v2.CreateTaskRequest`.
#[derive(Drop)]
pub struct CreateTaskRequest {
    /// Field 1.
    pub id: Text,
    /// The folder with the container's configuration.
    pub bundle: Text,
    /// Field 3.
    pub rootfs: Sequence<Mount>,
    /// Field 4.
    pub terminal: bool,
    /// Field 5.
    pub stdin: Text,
    /// Field 6.
    pub stdout: Text,
    /// Field 7.
    pub stderr: Text,
    /// Field 8.
    pub checkpoint: Text,
    /// Field 9.
    pub parent_checkpoint: Text,
    /// Field 10.
    pub options: Option<Any>,
}

const CREATE_TASK_REQUEST_ID: FieldNumber = FieldNumber { value: 1 };

const CREATE_TASK_REQUEST_BUNDLE: FieldNumber = FieldNumber { value: 2 };

const CREATE_TASK_REQUEST_ROOTFS: FieldNumber = FieldNumber { value: 3 };

const CREATE_TASK_REQUEST_TERMINAL: FieldNumber = FieldNumber { value: 4 };

const CREATE_TASK_REQUEST_STDIN: FieldNumber = FieldNumber { value: 5 };

const CREATE_TASK_REQUEST_STDOUT: FieldNumber = FieldNumber { value: 6 };

const CREATE_TASK_REQUEST_STDERR: FieldNumber = FieldNumber { value: 7 };

const CREATE_TASK_REQUEST_CHECKPOINT: FieldNumber = FieldNumber { value: 8 };

const CREATE_TASK_REQUEST_PARENT_CHECKPOINT: FieldNumber = FieldNumber { value: 9 };

const CREATE_TASK_REQUEST_OPTIONS: FieldNumber = FieldNumber { value: 10 };

impl TryClone for CreateTaskRequest {
    fn try_clone(&self) -> Result<CreateTaskRequest, AllocError> {
        let id = Single::<Utf8>::try_clone(&self.id)?;
        let (bundle, rootfs, stdin, stdout, stderr, checkpoint, parent_checkpoint, options) =
            clone_eight::<
                Single<Utf8>,
                Repeated<Nested<Mount>>,
                Single<Utf8>,
                Single<Utf8>,
                Single<Utf8>,
                Single<Utf8>,
                Single<Utf8>,
                Optional<Nested<Any>>,
            >(
                &self.bundle,
                &self.rootfs,
                &self.stdin,
                &self.stdout,
                &self.stderr,
                &self.checkpoint,
                &self.parent_checkpoint,
                &self.options,
            )?;
        Ok(CreateTaskRequest {
            id,
            bundle,
            rootfs,
            terminal: self.terminal,
            stdin,
            stdout,
            stderr,
            checkpoint,
            parent_checkpoint,
            options,
        })
    }
}

impl WireMessage for CreateTaskRequest {
    ghost use Rattle.shim_task_messages.specs.Messages.{create_task_request};

    ghost is_value = { create_task_request.part.is_value };

    ghost empty = { create_task_request.part.empty };

    ghost step = { create_task_request.part.step };

    ghost fields = { create_task_request.part.fields };

    fn new(alloc: Global) -> CreateTaskRequest {
        CreateTaskRequest {
            id: Single::<Utf8>::empty(alloc),
            bundle: Single::<Utf8>::empty(alloc),
            rootfs: Repeated::<Nested<Mount>>::empty(alloc),
            terminal: Single::<Boolean>::empty(alloc),
            stdin: Single::<Utf8>::empty(alloc),
            stdout: Single::<Utf8>::empty(alloc),
            stderr: Single::<Utf8>::empty(alloc),
            checkpoint: Single::<Utf8>::empty(alloc),
            parent_checkpoint: Single::<Utf8>::empty(alloc),
            options: Optional::<Nested<Any>>::empty(alloc),
        }
    }

    fn put(&mut self, alloc: Global, field: Field<'_>) -> Result<(), CodecError> {
        match field.number.value {
            1 => Single::<Utf8>::take(&mut self.id, alloc, field.value),
            2 => Single::<Utf8>::take(&mut self.bundle, alloc, field.value),
            3 => Repeated::<Nested<Mount>>::take(&mut self.rootfs, alloc, field.value),
            4 => Single::<Boolean>::take(&mut self.terminal, alloc, field.value),
            5 => Single::<Utf8>::take(&mut self.stdin, alloc, field.value),
            6 => Single::<Utf8>::take(&mut self.stdout, alloc, field.value),
            7 => Single::<Utf8>::take(&mut self.stderr, alloc, field.value),
            8 => Single::<Utf8>::take(&mut self.checkpoint, alloc, field.value),
            9 => Single::<Utf8>::take(&mut self.parent_checkpoint, alloc, field.value),
            10 => Optional::<Nested<Any>>::take(&mut self.options, alloc, field.value),
            _ => Ok(()),
        }
    }

    #[tactic(auto, using(ttrpc_members::proofs::Groups::flat_measured))]
    fn length(&self) -> u64 {
        let len: u64 = 0;
        let len = len.saturating_add(Single::<Utf8>::length(&self.id, CREATE_TASK_REQUEST_ID));
        let len = len.saturating_add(Single::<Utf8>::length(
            &self.bundle,
            CREATE_TASK_REQUEST_BUNDLE,
        ));
        let len = len.saturating_add(Repeated::<Nested<Mount>>::length(
            &self.rootfs,
            CREATE_TASK_REQUEST_ROOTFS,
        ));
        let len = len.saturating_add(Single::<Boolean>::length(
            &self.terminal,
            CREATE_TASK_REQUEST_TERMINAL,
        ));
        let len = len.saturating_add(Single::<Utf8>::length(
            &self.stdin,
            CREATE_TASK_REQUEST_STDIN,
        ));
        let len = len.saturating_add(Single::<Utf8>::length(
            &self.stdout,
            CREATE_TASK_REQUEST_STDOUT,
        ));
        let len = len.saturating_add(Single::<Utf8>::length(
            &self.stderr,
            CREATE_TASK_REQUEST_STDERR,
        ));
        let len = len.saturating_add(Single::<Utf8>::length(
            &self.checkpoint,
            CREATE_TASK_REQUEST_CHECKPOINT,
        ));
        let len = len.saturating_add(Single::<Utf8>::length(
            &self.parent_checkpoint,
            CREATE_TASK_REQUEST_PARENT_CHECKPOINT,
        ));
        len.saturating_add(Optional::<Nested<Any>>::length(
            &self.options,
            CREATE_TASK_REQUEST_OPTIONS,
        ))
    }

    #[tactic(auto, using(ttrpc_members::proofs::Groups::flat_written, ttrpc_members::proofs::Groups::flat_len))]
    fn write(&self, out: &mut Vec<u8>) -> Result<(), CodecError> {
        write_eight::<
            Single<Utf8>,
            Single<Utf8>,
            Repeated<Nested<Mount>>,
            Single<Boolean>,
            Single<Utf8>,
            Single<Utf8>,
            Single<Utf8>,
            Single<Utf8>,
        >(
            (&self.id, CREATE_TASK_REQUEST_ID),
            (&self.bundle, CREATE_TASK_REQUEST_BUNDLE),
            (&self.rootfs, CREATE_TASK_REQUEST_ROOTFS),
            (&self.terminal, CREATE_TASK_REQUEST_TERMINAL),
            (&self.stdin, CREATE_TASK_REQUEST_STDIN),
            (&self.stdout, CREATE_TASK_REQUEST_STDOUT),
            (&self.stderr, CREATE_TASK_REQUEST_STDERR),
            (&self.checkpoint, CREATE_TASK_REQUEST_CHECKPOINT),
            out,
        )?;
        write_two::<Single<Utf8>, Optional<Nested<Any>>>(
            (
                &self.parent_checkpoint,
                CREATE_TASK_REQUEST_PARENT_CHECKPOINT,
            ),
            (&self.options, CREATE_TASK_REQUEST_OPTIONS),
            out,
        )
    }

    fn lemma_is_value(&self) {
        Single::<Utf8>::lemma_is_value(&self.id);
        Single::<Utf8>::lemma_is_value(&self.bundle);
        Repeated::<Nested<Mount>>::lemma_is_value(&self.rootfs);
        Single::<Boolean>::lemma_is_value(&self.terminal);
        Single::<Utf8>::lemma_is_value(&self.stdin);
        Single::<Utf8>::lemma_is_value(&self.stdout);
        Single::<Utf8>::lemma_is_value(&self.stderr);
        Single::<Utf8>::lemma_is_value(&self.checkpoint);
        Single::<Utf8>::lemma_is_value(&self.parent_checkpoint);
        Optional::<Nested<Any>>::lemma_is_value(&self.options);
    }

    ghost again = { create_task_request.laws.again create_task_request.valid };

    ghost fits = { create_task_request.laws.fits create_task_request.valid };
}

impl Named for CreateTaskRequest {
    ghost use Rattle.std.specs.Prelude.{codes};

    ghost full_name = { codes "containerd.task.v2.CreateTaskRequest" };

    fn full_name() -> &'static str {
        "containerd.task.v2.CreateTaskRequest"
    }
}

/// The message `containerd.task.v2.CreateTaskResponse`.
#[derive(Drop)]
pub struct CreateTaskResponse {
    /// Field 1.
    pub pid: u32,
}

const CREATE_TASK_RESPONSE_PID: FieldNumber = FieldNumber { value: 1 };

impl TryClone for CreateTaskResponse {
    fn try_clone(&self) -> Result<CreateTaskResponse, AllocError> {
        Ok(CreateTaskResponse { pid: self.pid })
    }
}

impl WireMessage for CreateTaskResponse {
    ghost use Rattle.shim_task_messages.specs.Messages.{create_task_response};

    ghost is_value = { create_task_response.part.is_value };

    ghost empty = { create_task_response.part.empty };

    ghost step = { create_task_response.part.step };

    ghost fields = { create_task_response.part.fields };

    fn new(alloc: Global) -> CreateTaskResponse {
        CreateTaskResponse {
            pid: Single::<Uint32>::empty(alloc),
        }
    }

    fn put(&mut self, alloc: Global, field: Field<'_>) -> Result<(), CodecError> {
        match field.number.value {
            1 => Single::<Uint32>::take(&mut self.pid, alloc, field.value),
            _ => Ok(()),
        }
    }

    #[tactic(auto, using(ttrpc_members::proofs::Groups::flat_measured))]
    fn length(&self) -> u64 {
        let len: u64 = 0;
        len.saturating_add(Single::<Uint32>::length(&self.pid, CREATE_TASK_RESPONSE_PID))
    }

    #[tactic(auto, using(ttrpc_members::proofs::Groups::flat_written, ttrpc_members::proofs::Groups::flat_len))]
    fn write(&self, out: &mut Vec<u8>) -> Result<(), CodecError> {
        Single::<Uint32>::write(&self.pid, CREATE_TASK_RESPONSE_PID, out)
    }

    fn lemma_is_value(&self) {
        Single::<Uint32>::lemma_is_value(&self.pid);
    }

    ghost again = { create_task_response.laws.again create_task_response.valid };

    ghost fits = { create_task_response.laws.fits create_task_response.valid };
}

impl Named for CreateTaskResponse {
    ghost use Rattle.std.specs.Prelude.{codes};

    ghost full_name = { codes "containerd.task.v2.CreateTaskResponse" };

    fn full_name() -> &'static str {
        "containerd.task.v2.CreateTaskResponse"
    }
}

/// The message `containerd.task.v2.DeleteRequest`.
#[derive(Drop)]
pub struct DeleteRequest {
    /// Field 1.
    pub id: Text,
    /// Field 2.
    pub exec_id: Text,
}

const DELETE_REQUEST_ID: FieldNumber = FieldNumber { value: 1 };

const DELETE_REQUEST_EXEC_ID: FieldNumber = FieldNumber { value: 2 };

impl TryClone for DeleteRequest {
    fn try_clone(&self) -> Result<DeleteRequest, AllocError> {
        let id = Single::<Utf8>::try_clone(&self.id)?;
        let exec_id = Single::<Utf8>::try_clone(&self.exec_id)?;
        Ok(DeleteRequest { id, exec_id })
    }
}

impl WireMessage for DeleteRequest {
    ghost use Rattle.shim_task_messages.specs.Messages.{delete_request};

    ghost is_value = { delete_request.part.is_value };

    ghost empty = { delete_request.part.empty };

    ghost step = { delete_request.part.step };

    ghost fields = { delete_request.part.fields };

    fn new(alloc: Global) -> DeleteRequest {
        DeleteRequest {
            id: Single::<Utf8>::empty(alloc),
            exec_id: Single::<Utf8>::empty(alloc),
        }
    }

    fn put(&mut self, alloc: Global, field: Field<'_>) -> Result<(), CodecError> {
        match field.number.value {
            1 => Single::<Utf8>::take(&mut self.id, alloc, field.value),
            2 => Single::<Utf8>::take(&mut self.exec_id, alloc, field.value),
            _ => Ok(()),
        }
    }

    #[tactic(auto, using(ttrpc_members::proofs::Groups::flat_measured))]
    fn length(&self) -> u64 {
        let len: u64 = 0;
        let len = len.saturating_add(Single::<Utf8>::length(&self.id, DELETE_REQUEST_ID));
        len.saturating_add(Single::<Utf8>::length(&self.exec_id, DELETE_REQUEST_EXEC_ID))
    }

    #[tactic(auto, using(ttrpc_members::proofs::Groups::flat_written, ttrpc_members::proofs::Groups::flat_len))]
    fn write(&self, out: &mut Vec<u8>) -> Result<(), CodecError> {
        Single::<Utf8>::write(&self.id, DELETE_REQUEST_ID, out)?;
        Single::<Utf8>::write(&self.exec_id, DELETE_REQUEST_EXEC_ID, out)
    }

    fn lemma_is_value(&self) {
        Single::<Utf8>::lemma_is_value(&self.id);
        Single::<Utf8>::lemma_is_value(&self.exec_id);
    }

    ghost again = { delete_request.laws.again delete_request.valid };

    ghost fits = { delete_request.laws.fits delete_request.valid };
}

impl Named for DeleteRequest {
    ghost use Rattle.std.specs.Prelude.{codes};

    ghost full_name = { codes "containerd.task.v2.DeleteRequest" };

    fn full_name() -> &'static str {
        "containerd.task.v2.DeleteRequest"
    }
}

/// The message `containerd.task.v2.DeleteResponse`.
#[derive(Drop)]
pub struct DeleteResponse {
    /// Field 1.
    pub pid: u32,
    /// Field 2.
    pub exit_status: u32,
    /// Field 3.
    pub exited_at: Option<Timestamp>,
}

const DELETE_RESPONSE_PID: FieldNumber = FieldNumber { value: 1 };

const DELETE_RESPONSE_EXIT_STATUS: FieldNumber = FieldNumber { value: 2 };

const DELETE_RESPONSE_EXITED_AT: FieldNumber = FieldNumber { value: 3 };

impl TryClone for DeleteResponse {
    fn try_clone(&self) -> Result<DeleteResponse, AllocError> {
        let exited_at = Optional::<Nested<Timestamp>>::try_clone(&self.exited_at)?;
        Ok(DeleteResponse {
            pid: self.pid,
            exit_status: self.exit_status,
            exited_at,
        })
    }
}

impl WireMessage for DeleteResponse {
    ghost use Rattle.shim_task_messages.specs.Messages.{delete_response};

    ghost is_value = { delete_response.part.is_value };

    ghost empty = { delete_response.part.empty };

    ghost step = { delete_response.part.step };

    ghost fields = { delete_response.part.fields };

    fn new(alloc: Global) -> DeleteResponse {
        DeleteResponse {
            pid: Single::<Uint32>::empty(alloc),
            exit_status: Single::<Uint32>::empty(alloc),
            exited_at: Optional::<Nested<Timestamp>>::empty(alloc),
        }
    }

    fn put(&mut self, alloc: Global, field: Field<'_>) -> Result<(), CodecError> {
        match field.number.value {
            1 => Single::<Uint32>::take(&mut self.pid, alloc, field.value),
            2 => Single::<Uint32>::take(&mut self.exit_status, alloc, field.value),
            3 => Optional::<Nested<Timestamp>>::take(&mut self.exited_at, alloc, field.value),
            _ => Ok(()),
        }
    }

    #[tactic(auto, using(ttrpc_members::proofs::Groups::flat_measured))]
    fn length(&self) -> u64 {
        let len: u64 = 0;
        let len = len.saturating_add(Single::<Uint32>::length(&self.pid, DELETE_RESPONSE_PID));
        let len = len.saturating_add(Single::<Uint32>::length(
            &self.exit_status,
            DELETE_RESPONSE_EXIT_STATUS,
        ));
        len.saturating_add(Optional::<Nested<Timestamp>>::length(
            &self.exited_at,
            DELETE_RESPONSE_EXITED_AT,
        ))
    }

    #[tactic(auto, using(ttrpc_members::proofs::Groups::flat_written, ttrpc_members::proofs::Groups::flat_len))]
    fn write(&self, out: &mut Vec<u8>) -> Result<(), CodecError> {
        Single::<Uint32>::write(&self.pid, DELETE_RESPONSE_PID, out)?;
        Single::<Uint32>::write(&self.exit_status, DELETE_RESPONSE_EXIT_STATUS, out)?;
        Optional::<Nested<Timestamp>>::write(&self.exited_at, DELETE_RESPONSE_EXITED_AT, out)
    }

    fn lemma_is_value(&self) {
        Single::<Uint32>::lemma_is_value(&self.pid);
        Single::<Uint32>::lemma_is_value(&self.exit_status);
        Optional::<Nested<Timestamp>>::lemma_is_value(&self.exited_at);
    }

    ghost again = { delete_response.laws.again delete_response.valid };

    ghost fits = { delete_response.laws.fits delete_response.valid };
}

impl Named for DeleteResponse {
    ghost use Rattle.std.specs.Prelude.{codes};

    ghost full_name = { codes "containerd.task.v2.DeleteResponse" };

    fn full_name() -> &'static str {
        "containerd.task.v2.DeleteResponse"
    }
}

/// The message `containerd.task.v2.ExecProcessRequest`.
#[derive(Drop)]
pub struct ExecProcessRequest {
    /// Field 1.
    pub id: Text,
    /// Field 2.
    pub exec_id: Text,
    /// Field 3.
    pub terminal: bool,
    /// Field 4.
    pub stdin: Text,
    /// Field 5.
    pub stdout: Text,
    /// Field 6.
    pub stderr: Text,
    /// Field 7.
    pub spec: Option<Any>,
}

const EXEC_PROCESS_REQUEST_ID: FieldNumber = FieldNumber { value: 1 };

const EXEC_PROCESS_REQUEST_EXEC_ID: FieldNumber = FieldNumber { value: 2 };

const EXEC_PROCESS_REQUEST_TERMINAL: FieldNumber = FieldNumber { value: 3 };

const EXEC_PROCESS_REQUEST_STDIN: FieldNumber = FieldNumber { value: 4 };

const EXEC_PROCESS_REQUEST_STDOUT: FieldNumber = FieldNumber { value: 5 };

const EXEC_PROCESS_REQUEST_STDERR: FieldNumber = FieldNumber { value: 6 };

const EXEC_PROCESS_REQUEST_SPEC: FieldNumber = FieldNumber { value: 7 };

impl TryClone for ExecProcessRequest {
    fn try_clone(&self) -> Result<ExecProcessRequest, AllocError> {
        let (id, exec_id) = clone_two::<Single<Utf8>, Single<Utf8>>(&self.id, &self.exec_id)?;
        let (stdin, stdout, stderr, spec) = clone_four::<
            Single<Utf8>,
            Single<Utf8>,
            Single<Utf8>,
            Optional<Nested<Any>>,
        >(&self.stdin, &self.stdout, &self.stderr, &self.spec)?;
        Ok(ExecProcessRequest {
            id,
            exec_id,
            terminal: self.terminal,
            stdin,
            stdout,
            stderr,
            spec,
        })
    }
}

impl WireMessage for ExecProcessRequest {
    ghost use Rattle.shim_task_messages.specs.Messages.{exec_process_request};

    ghost is_value = { exec_process_request.part.is_value };

    ghost empty = { exec_process_request.part.empty };

    ghost step = { exec_process_request.part.step };

    ghost fields = { exec_process_request.part.fields };

    fn new(alloc: Global) -> ExecProcessRequest {
        ExecProcessRequest {
            id: Single::<Utf8>::empty(alloc),
            exec_id: Single::<Utf8>::empty(alloc),
            terminal: Single::<Boolean>::empty(alloc),
            stdin: Single::<Utf8>::empty(alloc),
            stdout: Single::<Utf8>::empty(alloc),
            stderr: Single::<Utf8>::empty(alloc),
            spec: Optional::<Nested<Any>>::empty(alloc),
        }
    }

    fn put(&mut self, alloc: Global, field: Field<'_>) -> Result<(), CodecError> {
        match field.number.value {
            1 => Single::<Utf8>::take(&mut self.id, alloc, field.value),
            2 => Single::<Utf8>::take(&mut self.exec_id, alloc, field.value),
            3 => Single::<Boolean>::take(&mut self.terminal, alloc, field.value),
            4 => Single::<Utf8>::take(&mut self.stdin, alloc, field.value),
            5 => Single::<Utf8>::take(&mut self.stdout, alloc, field.value),
            6 => Single::<Utf8>::take(&mut self.stderr, alloc, field.value),
            7 => Optional::<Nested<Any>>::take(&mut self.spec, alloc, field.value),
            _ => Ok(()),
        }
    }

    #[tactic(auto, using(ttrpc_members::proofs::Groups::flat_measured))]
    fn length(&self) -> u64 {
        let len: u64 = 0;
        let len = len.saturating_add(Single::<Utf8>::length(&self.id, EXEC_PROCESS_REQUEST_ID));
        let len = len.saturating_add(Single::<Utf8>::length(
            &self.exec_id,
            EXEC_PROCESS_REQUEST_EXEC_ID,
        ));
        let len = len.saturating_add(Single::<Boolean>::length(
            &self.terminal,
            EXEC_PROCESS_REQUEST_TERMINAL,
        ));
        let len = len.saturating_add(Single::<Utf8>::length(
            &self.stdin,
            EXEC_PROCESS_REQUEST_STDIN,
        ));
        let len = len.saturating_add(Single::<Utf8>::length(
            &self.stdout,
            EXEC_PROCESS_REQUEST_STDOUT,
        ));
        let len = len.saturating_add(Single::<Utf8>::length(
            &self.stderr,
            EXEC_PROCESS_REQUEST_STDERR,
        ));
        len.saturating_add(Optional::<Nested<Any>>::length(&self.spec, EXEC_PROCESS_REQUEST_SPEC))
    }

    #[tactic(auto, using(ttrpc_members::proofs::Groups::flat_written, ttrpc_members::proofs::Groups::flat_len))]
    fn write(&self, out: &mut Vec<u8>) -> Result<(), CodecError> {
        write_four::<Single<Utf8>, Single<Utf8>, Single<Boolean>, Single<Utf8>>(
            (&self.id, EXEC_PROCESS_REQUEST_ID),
            (&self.exec_id, EXEC_PROCESS_REQUEST_EXEC_ID),
            (&self.terminal, EXEC_PROCESS_REQUEST_TERMINAL),
            (&self.stdin, EXEC_PROCESS_REQUEST_STDIN),
            out,
        )?;
        write_two::<Single<Utf8>, Single<Utf8>>(
            (&self.stdout, EXEC_PROCESS_REQUEST_STDOUT),
            (&self.stderr, EXEC_PROCESS_REQUEST_STDERR),
            out,
        )?;
        Optional::<Nested<Any>>::write(&self.spec, EXEC_PROCESS_REQUEST_SPEC, out)
    }

    fn lemma_is_value(&self) {
        Single::<Utf8>::lemma_is_value(&self.id);
        Single::<Utf8>::lemma_is_value(&self.exec_id);
        Single::<Boolean>::lemma_is_value(&self.terminal);
        Single::<Utf8>::lemma_is_value(&self.stdin);
        Single::<Utf8>::lemma_is_value(&self.stdout);
        Single::<Utf8>::lemma_is_value(&self.stderr);
        Optional::<Nested<Any>>::lemma_is_value(&self.spec);
    }

    ghost again = { exec_process_request.laws.again exec_process_request.valid };

    ghost fits = { exec_process_request.laws.fits exec_process_request.valid };
}

impl Named for ExecProcessRequest {
    ghost use Rattle.std.specs.Prelude.{codes};

    ghost full_name = { codes "containerd.task.v2.ExecProcessRequest" };

    fn full_name() -> &'static str {
        "containerd.task.v2.ExecProcessRequest"
    }
}

/// The message `containerd.task.v2.ExecProcessResponse`.
#[derive(Drop)]
pub struct ExecProcessResponse {}

impl TryClone for ExecProcessResponse {
    fn try_clone(&self) -> Result<ExecProcessResponse, AllocError> {
        Ok(ExecProcessResponse {})
    }
}

impl WireMessage for ExecProcessResponse {
    ghost use Rattle.shim_task_messages.specs.Messages.{exec_process_response};

    ghost is_value = { exec_process_response.part.is_value };

    ghost empty = { exec_process_response.part.empty };

    ghost step = { exec_process_response.part.step };

    ghost fields = { exec_process_response.part.fields };

    fn new(_alloc: Global) -> ExecProcessResponse {
        ExecProcessResponse {}
    }

    fn put(&mut self, _alloc: Global, _field: Field<'_>) -> Result<(), CodecError> {
        Ok(())
    }

    #[tactic(auto, using(ttrpc_members::proofs::Groups::flat_measured))]
    fn length(&self) -> u64 {
        0
    }

    #[tactic(auto, using(ttrpc_members::proofs::Groups::flat_written, ttrpc_members::proofs::Groups::flat_len))]
    fn write(&self, _out: &mut Vec<u8>) -> Result<(), CodecError> {
        Ok(())
    }

    fn lemma_is_value(&self) {}

    ghost again = { exec_process_response.laws.again exec_process_response.valid };

    ghost fits = { exec_process_response.laws.fits exec_process_response.valid };
}

impl Named for ExecProcessResponse {
    ghost use Rattle.std.specs.Prelude.{codes};

    ghost full_name = { codes "containerd.task.v2.ExecProcessResponse" };

    fn full_name() -> &'static str {
        "containerd.task.v2.ExecProcessResponse"
    }
}

/// The message `containerd.task.v2.ResizePtyRequest`.
#[derive(Drop)]
pub struct ResizePtyRequest {
    /// Field 1.
    pub id: Text,
    /// Field 2.
    pub exec_id: Text,
    /// Field 3.
    pub width: u32,
    /// Field 4.
    pub height: u32,
}

const RESIZE_PTY_REQUEST_ID: FieldNumber = FieldNumber { value: 1 };

const RESIZE_PTY_REQUEST_EXEC_ID: FieldNumber = FieldNumber { value: 2 };

const RESIZE_PTY_REQUEST_WIDTH: FieldNumber = FieldNumber { value: 3 };

const RESIZE_PTY_REQUEST_HEIGHT: FieldNumber = FieldNumber { value: 4 };

impl TryClone for ResizePtyRequest {
    fn try_clone(&self) -> Result<ResizePtyRequest, AllocError> {
        let id = Single::<Utf8>::try_clone(&self.id)?;
        let exec_id = Single::<Utf8>::try_clone(&self.exec_id)?;
        Ok(ResizePtyRequest {
            id,
            exec_id,
            width: self.width,
            height: self.height,
        })
    }
}

impl WireMessage for ResizePtyRequest {
    ghost use Rattle.shim_task_messages.specs.Messages.{resize_pty_request};

    ghost is_value = { resize_pty_request.part.is_value };

    ghost empty = { resize_pty_request.part.empty };

    ghost step = { resize_pty_request.part.step };

    ghost fields = { resize_pty_request.part.fields };

    fn new(alloc: Global) -> ResizePtyRequest {
        ResizePtyRequest {
            id: Single::<Utf8>::empty(alloc),
            exec_id: Single::<Utf8>::empty(alloc),
            width: Single::<Uint32>::empty(alloc),
            height: Single::<Uint32>::empty(alloc),
        }
    }

    fn put(&mut self, alloc: Global, field: Field<'_>) -> Result<(), CodecError> {
        match field.number.value {
            1 => Single::<Utf8>::take(&mut self.id, alloc, field.value),
            2 => Single::<Utf8>::take(&mut self.exec_id, alloc, field.value),
            3 => Single::<Uint32>::take(&mut self.width, alloc, field.value),
            4 => Single::<Uint32>::take(&mut self.height, alloc, field.value),
            _ => Ok(()),
        }
    }

    #[tactic(auto, using(ttrpc_members::proofs::Groups::flat_measured))]
    fn length(&self) -> u64 {
        let len: u64 = 0;
        let len = len.saturating_add(Single::<Utf8>::length(&self.id, RESIZE_PTY_REQUEST_ID));
        let len = len.saturating_add(Single::<Utf8>::length(
            &self.exec_id,
            RESIZE_PTY_REQUEST_EXEC_ID,
        ));
        let len = len.saturating_add(Single::<Uint32>::length(
            &self.width,
            RESIZE_PTY_REQUEST_WIDTH,
        ));
        len.saturating_add(Single::<Uint32>::length(&self.height, RESIZE_PTY_REQUEST_HEIGHT))
    }

    #[tactic(auto, using(ttrpc_members::proofs::Groups::flat_written, ttrpc_members::proofs::Groups::flat_len))]
    fn write(&self, out: &mut Vec<u8>) -> Result<(), CodecError> {
        write_four::<Single<Utf8>, Single<Utf8>, Single<Uint32>, Single<Uint32>>(
            (&self.id, RESIZE_PTY_REQUEST_ID),
            (&self.exec_id, RESIZE_PTY_REQUEST_EXEC_ID),
            (&self.width, RESIZE_PTY_REQUEST_WIDTH),
            (&self.height, RESIZE_PTY_REQUEST_HEIGHT),
            out,
        )
    }

    fn lemma_is_value(&self) {
        Single::<Utf8>::lemma_is_value(&self.id);
        Single::<Utf8>::lemma_is_value(&self.exec_id);
        Single::<Uint32>::lemma_is_value(&self.width);
        Single::<Uint32>::lemma_is_value(&self.height);
    }

    ghost again = { resize_pty_request.laws.again resize_pty_request.valid };

    ghost fits = { resize_pty_request.laws.fits resize_pty_request.valid };
}

impl Named for ResizePtyRequest {
    ghost use Rattle.std.specs.Prelude.{codes};

    ghost full_name = { codes "containerd.task.v2.ResizePtyRequest" };

    fn full_name() -> &'static str {
        "containerd.task.v2.ResizePtyRequest"
    }
}

/// The message `containerd.task.v2.StateRequest`.
#[derive(Drop)]
pub struct StateRequest {
    /// Field 1.
    pub id: Text,
    /// Field 2.
    pub exec_id: Text,
}

const STATE_REQUEST_ID: FieldNumber = FieldNumber { value: 1 };

const STATE_REQUEST_EXEC_ID: FieldNumber = FieldNumber { value: 2 };

impl TryClone for StateRequest {
    fn try_clone(&self) -> Result<StateRequest, AllocError> {
        let id = Single::<Utf8>::try_clone(&self.id)?;
        let exec_id = Single::<Utf8>::try_clone(&self.exec_id)?;
        Ok(StateRequest { id, exec_id })
    }
}

impl WireMessage for StateRequest {
    ghost use Rattle.shim_task_messages.specs.Messages.{state_request};

    ghost is_value = { state_request.part.is_value };

    ghost empty = { state_request.part.empty };

    ghost step = { state_request.part.step };

    ghost fields = { state_request.part.fields };

    fn new(alloc: Global) -> StateRequest {
        StateRequest {
            id: Single::<Utf8>::empty(alloc),
            exec_id: Single::<Utf8>::empty(alloc),
        }
    }

    fn put(&mut self, alloc: Global, field: Field<'_>) -> Result<(), CodecError> {
        match field.number.value {
            1 => Single::<Utf8>::take(&mut self.id, alloc, field.value),
            2 => Single::<Utf8>::take(&mut self.exec_id, alloc, field.value),
            _ => Ok(()),
        }
    }

    #[tactic(auto, using(ttrpc_members::proofs::Groups::flat_measured))]
    fn length(&self) -> u64 {
        let len: u64 = 0;
        let len = len.saturating_add(Single::<Utf8>::length(&self.id, STATE_REQUEST_ID));
        len.saturating_add(Single::<Utf8>::length(&self.exec_id, STATE_REQUEST_EXEC_ID))
    }

    #[tactic(auto, using(ttrpc_members::proofs::Groups::flat_written, ttrpc_members::proofs::Groups::flat_len))]
    fn write(&self, out: &mut Vec<u8>) -> Result<(), CodecError> {
        Single::<Utf8>::write(&self.id, STATE_REQUEST_ID, out)?;
        Single::<Utf8>::write(&self.exec_id, STATE_REQUEST_EXEC_ID, out)
    }

    fn lemma_is_value(&self) {
        Single::<Utf8>::lemma_is_value(&self.id);
        Single::<Utf8>::lemma_is_value(&self.exec_id);
    }

    ghost again = { state_request.laws.again state_request.valid };

    ghost fits = { state_request.laws.fits state_request.valid };
}

impl Named for StateRequest {
    ghost use Rattle.std.specs.Prelude.{codes};

    ghost full_name = { codes "containerd.task.v2.StateRequest" };

    fn full_name() -> &'static str {
        "containerd.task.v2.StateRequest"
    }
}

/// The message `containerd.task.v2.StateResponse`.
#[derive(Drop)]
pub struct StateResponse {
    /// Field 1.
    pub id: Text,
    /// Field 2.
    pub bundle: Text,
    /// Field 3.
    pub pid: u32,
    /// Field 4.
    pub status: i32,
    /// Field 5.
    pub stdin: Text,
    /// Field 6.
    pub stdout: Text,
    /// Field 7.
    pub stderr: Text,
    /// Field 8.
    pub terminal: bool,
    /// Field 9.
    pub exit_status: u32,
    /// Field 10.
    pub exited_at: Option<Timestamp>,
    /// Field 11.
    pub exec_id: Text,
}

const STATE_RESPONSE_ID: FieldNumber = FieldNumber { value: 1 };

const STATE_RESPONSE_BUNDLE: FieldNumber = FieldNumber { value: 2 };

const STATE_RESPONSE_PID: FieldNumber = FieldNumber { value: 3 };

const STATE_RESPONSE_STATUS: FieldNumber = FieldNumber { value: 4 };

const STATE_RESPONSE_STDIN: FieldNumber = FieldNumber { value: 5 };

const STATE_RESPONSE_STDOUT: FieldNumber = FieldNumber { value: 6 };

const STATE_RESPONSE_STDERR: FieldNumber = FieldNumber { value: 7 };

const STATE_RESPONSE_TERMINAL: FieldNumber = FieldNumber { value: 8 };

const STATE_RESPONSE_EXIT_STATUS: FieldNumber = FieldNumber { value: 9 };

const STATE_RESPONSE_EXITED_AT: FieldNumber = FieldNumber { value: 10 };

const STATE_RESPONSE_EXEC_ID: FieldNumber = FieldNumber { value: 11 };

impl TryClone for StateResponse {
    fn try_clone(&self) -> Result<StateResponse, AllocError> {
        let id = Single::<Utf8>::try_clone(&self.id)?;
        let (bundle, stdin) = clone_two::<Single<Utf8>, Single<Utf8>>(&self.bundle, &self.stdin)?;
        let (stdout, stderr, exited_at, exec_id) = clone_four::<
            Single<Utf8>,
            Single<Utf8>,
            Optional<Nested<Timestamp>>,
            Single<Utf8>,
        >(&self.stdout, &self.stderr, &self.exited_at, &self.exec_id)?;
        Ok(StateResponse {
            id,
            bundle,
            pid: self.pid,
            status: self.status,
            stdin,
            stdout,
            stderr,
            terminal: self.terminal,
            exit_status: self.exit_status,
            exited_at,
            exec_id,
        })
    }
}

impl WireMessage for StateResponse {
    ghost use Rattle.shim_task_messages.specs.Messages.{state_response};

    ghost is_value = { state_response.part.is_value };

    ghost empty = { state_response.part.empty };

    ghost step = { state_response.part.step };

    ghost fields = { state_response.part.fields };

    fn new(alloc: Global) -> StateResponse {
        StateResponse {
            id: Single::<Utf8>::empty(alloc),
            bundle: Single::<Utf8>::empty(alloc),
            pid: Single::<Uint32>::empty(alloc),
            status: Single::<Int32>::empty(alloc),
            stdin: Single::<Utf8>::empty(alloc),
            stdout: Single::<Utf8>::empty(alloc),
            stderr: Single::<Utf8>::empty(alloc),
            terminal: Single::<Boolean>::empty(alloc),
            exit_status: Single::<Uint32>::empty(alloc),
            exited_at: Optional::<Nested<Timestamp>>::empty(alloc),
            exec_id: Single::<Utf8>::empty(alloc),
        }
    }

    fn put(&mut self, alloc: Global, field: Field<'_>) -> Result<(), CodecError> {
        match field.number.value {
            1 => Single::<Utf8>::take(&mut self.id, alloc, field.value),
            2 => Single::<Utf8>::take(&mut self.bundle, alloc, field.value),
            3 => Single::<Uint32>::take(&mut self.pid, alloc, field.value),
            4 => Single::<Int32>::take(&mut self.status, alloc, field.value),
            5 => Single::<Utf8>::take(&mut self.stdin, alloc, field.value),
            6 => Single::<Utf8>::take(&mut self.stdout, alloc, field.value),
            7 => Single::<Utf8>::take(&mut self.stderr, alloc, field.value),
            8 => Single::<Boolean>::take(&mut self.terminal, alloc, field.value),
            9 => Single::<Uint32>::take(&mut self.exit_status, alloc, field.value),
            10 => Optional::<Nested<Timestamp>>::take(&mut self.exited_at, alloc, field.value),
            11 => Single::<Utf8>::take(&mut self.exec_id, alloc, field.value),
            _ => Ok(()),
        }
    }

    #[tactic(auto, using(ttrpc_members::proofs::Groups::flat_measured))]
    fn length(&self) -> u64 {
        let len: u64 = 0;
        let len = len.saturating_add(Single::<Utf8>::length(&self.id, STATE_RESPONSE_ID));
        let len = len.saturating_add(Single::<Utf8>::length(&self.bundle, STATE_RESPONSE_BUNDLE));
        let len = len.saturating_add(Single::<Uint32>::length(&self.pid, STATE_RESPONSE_PID));
        let len = len.saturating_add(Single::<Int32>::length(&self.status, STATE_RESPONSE_STATUS));
        let len = len.saturating_add(Single::<Utf8>::length(&self.stdin, STATE_RESPONSE_STDIN));
        let len = len.saturating_add(Single::<Utf8>::length(&self.stdout, STATE_RESPONSE_STDOUT));
        let len = len.saturating_add(Single::<Utf8>::length(&self.stderr, STATE_RESPONSE_STDERR));
        let len = len.saturating_add(Single::<Boolean>::length(
            &self.terminal,
            STATE_RESPONSE_TERMINAL,
        ));
        let len = len.saturating_add(Single::<Uint32>::length(
            &self.exit_status,
            STATE_RESPONSE_EXIT_STATUS,
        ));
        let len = len.saturating_add(Optional::<Nested<Timestamp>>::length(
            &self.exited_at,
            STATE_RESPONSE_EXITED_AT,
        ));
        len.saturating_add(Single::<Utf8>::length(&self.exec_id, STATE_RESPONSE_EXEC_ID))
    }

    #[tactic(auto, using(ttrpc_members::proofs::Groups::flat_written, ttrpc_members::proofs::Groups::flat_len))]
    fn write(&self, out: &mut Vec<u8>) -> Result<(), CodecError> {
        write_eight::<
            Single<Utf8>,
            Single<Utf8>,
            Single<Uint32>,
            Single<Int32>,
            Single<Utf8>,
            Single<Utf8>,
            Single<Utf8>,
            Single<Boolean>,
        >(
            (&self.id, STATE_RESPONSE_ID),
            (&self.bundle, STATE_RESPONSE_BUNDLE),
            (&self.pid, STATE_RESPONSE_PID),
            (&self.status, STATE_RESPONSE_STATUS),
            (&self.stdin, STATE_RESPONSE_STDIN),
            (&self.stdout, STATE_RESPONSE_STDOUT),
            (&self.stderr, STATE_RESPONSE_STDERR),
            (&self.terminal, STATE_RESPONSE_TERMINAL),
            out,
        )?;
        write_two::<Single<Uint32>, Optional<Nested<Timestamp>>>(
            (&self.exit_status, STATE_RESPONSE_EXIT_STATUS),
            (&self.exited_at, STATE_RESPONSE_EXITED_AT),
            out,
        )?;
        Single::<Utf8>::write(&self.exec_id, STATE_RESPONSE_EXEC_ID, out)
    }

    fn lemma_is_value(&self) {
        Single::<Utf8>::lemma_is_value(&self.id);
        Single::<Utf8>::lemma_is_value(&self.bundle);
        Single::<Uint32>::lemma_is_value(&self.pid);
        Single::<Int32>::lemma_is_value(&self.status);
        Single::<Utf8>::lemma_is_value(&self.stdin);
        Single::<Utf8>::lemma_is_value(&self.stdout);
        Single::<Utf8>::lemma_is_value(&self.stderr);
        Single::<Boolean>::lemma_is_value(&self.terminal);
        Single::<Uint32>::lemma_is_value(&self.exit_status);
        Optional::<Nested<Timestamp>>::lemma_is_value(&self.exited_at);
        Single::<Utf8>::lemma_is_value(&self.exec_id);
    }

    ghost again = { state_response.laws.again state_response.valid };

    ghost fits = { state_response.laws.fits state_response.valid };
}

impl Named for StateResponse {
    ghost use Rattle.std.specs.Prelude.{codes};

    ghost full_name = { codes "containerd.task.v2.StateResponse" };

    fn full_name() -> &'static str {
        "containerd.task.v2.StateResponse"
    }
}

/// The message `containerd.task.v2.KillRequest`.
#[derive(Drop)]
pub struct KillRequest {
    /// Field 1.
    pub id: Text,
    /// Field 2.
    pub exec_id: Text,
    /// Field 3.
    pub signal: u32,
    /// Field 4.
    pub all: bool,
}

const KILL_REQUEST_ID: FieldNumber = FieldNumber { value: 1 };

const KILL_REQUEST_EXEC_ID: FieldNumber = FieldNumber { value: 2 };

const KILL_REQUEST_SIGNAL: FieldNumber = FieldNumber { value: 3 };

const KILL_REQUEST_ALL: FieldNumber = FieldNumber { value: 4 };

impl TryClone for KillRequest {
    fn try_clone(&self) -> Result<KillRequest, AllocError> {
        let id = Single::<Utf8>::try_clone(&self.id)?;
        let exec_id = Single::<Utf8>::try_clone(&self.exec_id)?;
        Ok(KillRequest {
            id,
            exec_id,
            signal: self.signal,
            all: self.all,
        })
    }
}

impl WireMessage for KillRequest {
    ghost use Rattle.shim_task_messages.specs.Messages.{kill_request};

    ghost is_value = { kill_request.part.is_value };

    ghost empty = { kill_request.part.empty };

    ghost step = { kill_request.part.step };

    ghost fields = { kill_request.part.fields };

    fn new(alloc: Global) -> KillRequest {
        KillRequest {
            id: Single::<Utf8>::empty(alloc),
            exec_id: Single::<Utf8>::empty(alloc),
            signal: Single::<Uint32>::empty(alloc),
            all: Single::<Boolean>::empty(alloc),
        }
    }

    fn put(&mut self, alloc: Global, field: Field<'_>) -> Result<(), CodecError> {
        match field.number.value {
            1 => Single::<Utf8>::take(&mut self.id, alloc, field.value),
            2 => Single::<Utf8>::take(&mut self.exec_id, alloc, field.value),
            3 => Single::<Uint32>::take(&mut self.signal, alloc, field.value),
            4 => Single::<Boolean>::take(&mut self.all, alloc, field.value),
            _ => Ok(()),
        }
    }

    #[tactic(auto, using(ttrpc_members::proofs::Groups::flat_measured))]
    fn length(&self) -> u64 {
        let len: u64 = 0;
        let len = len.saturating_add(Single::<Utf8>::length(&self.id, KILL_REQUEST_ID));
        let len = len.saturating_add(Single::<Utf8>::length(&self.exec_id, KILL_REQUEST_EXEC_ID));
        let len = len.saturating_add(Single::<Uint32>::length(&self.signal, KILL_REQUEST_SIGNAL));
        len.saturating_add(Single::<Boolean>::length(&self.all, KILL_REQUEST_ALL))
    }

    #[tactic(auto, using(ttrpc_members::proofs::Groups::flat_written, ttrpc_members::proofs::Groups::flat_len))]
    fn write(&self, out: &mut Vec<u8>) -> Result<(), CodecError> {
        write_four::<Single<Utf8>, Single<Utf8>, Single<Uint32>, Single<Boolean>>(
            (&self.id, KILL_REQUEST_ID),
            (&self.exec_id, KILL_REQUEST_EXEC_ID),
            (&self.signal, KILL_REQUEST_SIGNAL),
            (&self.all, KILL_REQUEST_ALL),
            out,
        )
    }

    fn lemma_is_value(&self) {
        Single::<Utf8>::lemma_is_value(&self.id);
        Single::<Utf8>::lemma_is_value(&self.exec_id);
        Single::<Uint32>::lemma_is_value(&self.signal);
        Single::<Boolean>::lemma_is_value(&self.all);
    }

    ghost again = { kill_request.laws.again kill_request.valid };

    ghost fits = { kill_request.laws.fits kill_request.valid };
}

impl Named for KillRequest {
    ghost use Rattle.std.specs.Prelude.{codes};

    ghost full_name = { codes "containerd.task.v2.KillRequest" };

    fn full_name() -> &'static str {
        "containerd.task.v2.KillRequest"
    }
}

/// The message `containerd.task.v2.CloseIORequest`.
#[derive(Drop)]
pub struct CloseIORequest {
    /// Field 1.
    pub id: Text,
    /// Field 2.
    pub exec_id: Text,
    /// Field 3.
    pub stdin: bool,
}

const CLOSE_IO_REQUEST_ID: FieldNumber = FieldNumber { value: 1 };

const CLOSE_IO_REQUEST_EXEC_ID: FieldNumber = FieldNumber { value: 2 };

const CLOSE_IO_REQUEST_STDIN: FieldNumber = FieldNumber { value: 3 };

impl TryClone for CloseIORequest {
    fn try_clone(&self) -> Result<CloseIORequest, AllocError> {
        let id = Single::<Utf8>::try_clone(&self.id)?;
        let exec_id = Single::<Utf8>::try_clone(&self.exec_id)?;
        Ok(CloseIORequest {
            id,
            exec_id,
            stdin: self.stdin,
        })
    }
}

impl WireMessage for CloseIORequest {
    ghost use Rattle.shim_task_messages.specs.Messages.{close_io_request};

    ghost is_value = { close_io_request.part.is_value };

    ghost empty = { close_io_request.part.empty };

    ghost step = { close_io_request.part.step };

    ghost fields = { close_io_request.part.fields };

    fn new(alloc: Global) -> CloseIORequest {
        CloseIORequest {
            id: Single::<Utf8>::empty(alloc),
            exec_id: Single::<Utf8>::empty(alloc),
            stdin: Single::<Boolean>::empty(alloc),
        }
    }

    fn put(&mut self, alloc: Global, field: Field<'_>) -> Result<(), CodecError> {
        match field.number.value {
            1 => Single::<Utf8>::take(&mut self.id, alloc, field.value),
            2 => Single::<Utf8>::take(&mut self.exec_id, alloc, field.value),
            3 => Single::<Boolean>::take(&mut self.stdin, alloc, field.value),
            _ => Ok(()),
        }
    }

    #[tactic(auto, using(ttrpc_members::proofs::Groups::flat_measured))]
    fn length(&self) -> u64 {
        let len: u64 = 0;
        let len = len.saturating_add(Single::<Utf8>::length(&self.id, CLOSE_IO_REQUEST_ID));
        let len = len.saturating_add(Single::<Utf8>::length(
            &self.exec_id,
            CLOSE_IO_REQUEST_EXEC_ID,
        ));
        len.saturating_add(Single::<Boolean>::length(&self.stdin, CLOSE_IO_REQUEST_STDIN))
    }

    #[tactic(auto, using(ttrpc_members::proofs::Groups::flat_written, ttrpc_members::proofs::Groups::flat_len))]
    fn write(&self, out: &mut Vec<u8>) -> Result<(), CodecError> {
        Single::<Utf8>::write(&self.id, CLOSE_IO_REQUEST_ID, out)?;
        Single::<Utf8>::write(&self.exec_id, CLOSE_IO_REQUEST_EXEC_ID, out)?;
        Single::<Boolean>::write(&self.stdin, CLOSE_IO_REQUEST_STDIN, out)
    }

    fn lemma_is_value(&self) {
        Single::<Utf8>::lemma_is_value(&self.id);
        Single::<Utf8>::lemma_is_value(&self.exec_id);
        Single::<Boolean>::lemma_is_value(&self.stdin);
    }

    ghost again = { close_io_request.laws.again close_io_request.valid };

    ghost fits = { close_io_request.laws.fits close_io_request.valid };
}

impl Named for CloseIORequest {
    ghost use Rattle.std.specs.Prelude.{codes};

    ghost full_name = { codes "containerd.task.v2.CloseIORequest" };

    fn full_name() -> &'static str {
        "containerd.task.v2.CloseIORequest"
    }
}

/// The message `containerd.task.v2.PidsRequest`.
#[derive(Drop)]
pub struct PidsRequest {
    /// Field 1.
    pub id: Text,
}

const PIDS_REQUEST_ID: FieldNumber = FieldNumber { value: 1 };

impl TryClone for PidsRequest {
    fn try_clone(&self) -> Result<PidsRequest, AllocError> {
        let id = Single::<Utf8>::try_clone(&self.id)?;
        Ok(PidsRequest { id })
    }
}

impl WireMessage for PidsRequest {
    ghost use Rattle.shim_task_messages.specs.Messages.{pids_request};

    ghost is_value = { pids_request.part.is_value };

    ghost empty = { pids_request.part.empty };

    ghost step = { pids_request.part.step };

    ghost fields = { pids_request.part.fields };

    fn new(alloc: Global) -> PidsRequest {
        PidsRequest {
            id: Single::<Utf8>::empty(alloc),
        }
    }

    fn put(&mut self, alloc: Global, field: Field<'_>) -> Result<(), CodecError> {
        match field.number.value {
            1 => Single::<Utf8>::take(&mut self.id, alloc, field.value),
            _ => Ok(()),
        }
    }

    #[tactic(auto, using(ttrpc_members::proofs::Groups::flat_measured))]
    fn length(&self) -> u64 {
        let len: u64 = 0;
        len.saturating_add(Single::<Utf8>::length(&self.id, PIDS_REQUEST_ID))
    }

    #[tactic(auto, using(ttrpc_members::proofs::Groups::flat_written, ttrpc_members::proofs::Groups::flat_len))]
    fn write(&self, out: &mut Vec<u8>) -> Result<(), CodecError> {
        Single::<Utf8>::write(&self.id, PIDS_REQUEST_ID, out)
    }

    fn lemma_is_value(&self) {
        Single::<Utf8>::lemma_is_value(&self.id);
    }

    ghost again = { pids_request.laws.again pids_request.valid };

    ghost fits = { pids_request.laws.fits pids_request.valid };
}

impl Named for PidsRequest {
    ghost use Rattle.std.specs.Prelude.{codes};

    ghost full_name = { codes "containerd.task.v2.PidsRequest" };

    fn full_name() -> &'static str {
        "containerd.task.v2.PidsRequest"
    }
}

/// The message `containerd.task.v2.PidsResponse`.
#[derive(Drop)]
pub struct PidsResponse {
    /// Field 1.
    pub processes: Sequence<ProcessInfo>,
}

const PIDS_RESPONSE_PROCESSES: FieldNumber = FieldNumber { value: 1 };

impl TryClone for PidsResponse {
    fn try_clone(&self) -> Result<PidsResponse, AllocError> {
        let processes = Repeated::<Nested<ProcessInfo>>::try_clone(&self.processes)?;
        Ok(PidsResponse { processes })
    }
}

impl WireMessage for PidsResponse {
    ghost use Rattle.shim_task_messages.specs.Messages.{pids_response};

    ghost is_value = { pids_response.part.is_value };

    ghost empty = { pids_response.part.empty };

    ghost step = { pids_response.part.step };

    ghost fields = { pids_response.part.fields };

    fn new(alloc: Global) -> PidsResponse {
        PidsResponse {
            processes: Repeated::<Nested<ProcessInfo>>::empty(alloc),
        }
    }

    fn put(&mut self, alloc: Global, field: Field<'_>) -> Result<(), CodecError> {
        match field.number.value {
            1 => Repeated::<Nested<ProcessInfo>>::take(&mut self.processes, alloc, field.value),
            _ => Ok(()),
        }
    }

    #[tactic(auto, using(ttrpc_members::proofs::Groups::flat_measured))]
    fn length(&self) -> u64 {
        let len: u64 = 0;
        len.saturating_add(Repeated::<Nested<ProcessInfo>>::length(
            &self.processes,
            PIDS_RESPONSE_PROCESSES,
        ))
    }

    #[tactic(auto, using(ttrpc_members::proofs::Groups::flat_written, ttrpc_members::proofs::Groups::flat_len))]
    fn write(&self, out: &mut Vec<u8>) -> Result<(), CodecError> {
        Repeated::<Nested<ProcessInfo>>::write(&self.processes, PIDS_RESPONSE_PROCESSES, out)
    }

    fn lemma_is_value(&self) {
        Repeated::<Nested<ProcessInfo>>::lemma_is_value(&self.processes);
    }

    ghost again = { pids_response.laws.again pids_response.valid };

    ghost fits = { pids_response.laws.fits pids_response.valid };
}

impl Named for PidsResponse {
    ghost use Rattle.std.specs.Prelude.{codes};

    ghost full_name = { codes "containerd.task.v2.PidsResponse" };

    fn full_name() -> &'static str {
        "containerd.task.v2.PidsResponse"
    }
}

/// The message `containerd.task.v2.CheckpointTaskRequest`.
#[derive(Drop)]
pub struct CheckpointTaskRequest {
    /// Field 1.
    pub id: Text,
    /// Field 2.
    pub path: Text,
    /// Field 3.
    pub options: Option<Any>,
}

const CHECKPOINT_TASK_REQUEST_ID: FieldNumber = FieldNumber { value: 1 };

const CHECKPOINT_TASK_REQUEST_PATH: FieldNumber = FieldNumber { value: 2 };

const CHECKPOINT_TASK_REQUEST_OPTIONS: FieldNumber = FieldNumber { value: 3 };

impl TryClone for CheckpointTaskRequest {
    fn try_clone(&self) -> Result<CheckpointTaskRequest, AllocError> {
        let id = Single::<Utf8>::try_clone(&self.id)?;
        let path = Single::<Utf8>::try_clone(&self.path)?;
        let options = Optional::<Nested<Any>>::try_clone(&self.options)?;
        Ok(CheckpointTaskRequest { id, path, options })
    }
}

impl WireMessage for CheckpointTaskRequest {
    ghost use Rattle.shim_task_messages.specs.Messages.{checkpoint_task_request};

    ghost is_value = { checkpoint_task_request.part.is_value };

    ghost empty = { checkpoint_task_request.part.empty };

    ghost step = { checkpoint_task_request.part.step };

    ghost fields = { checkpoint_task_request.part.fields };

    fn new(alloc: Global) -> CheckpointTaskRequest {
        CheckpointTaskRequest {
            id: Single::<Utf8>::empty(alloc),
            path: Single::<Utf8>::empty(alloc),
            options: Optional::<Nested<Any>>::empty(alloc),
        }
    }

    fn put(&mut self, alloc: Global, field: Field<'_>) -> Result<(), CodecError> {
        match field.number.value {
            1 => Single::<Utf8>::take(&mut self.id, alloc, field.value),
            2 => Single::<Utf8>::take(&mut self.path, alloc, field.value),
            3 => Optional::<Nested<Any>>::take(&mut self.options, alloc, field.value),
            _ => Ok(()),
        }
    }

    #[tactic(auto, using(ttrpc_members::proofs::Groups::flat_measured))]
    fn length(&self) -> u64 {
        let len: u64 = 0;
        let len = len.saturating_add(Single::<Utf8>::length(&self.id, CHECKPOINT_TASK_REQUEST_ID));
        let len = len.saturating_add(Single::<Utf8>::length(
            &self.path,
            CHECKPOINT_TASK_REQUEST_PATH,
        ));
        len.saturating_add(Optional::<Nested<Any>>::length(
            &self.options,
            CHECKPOINT_TASK_REQUEST_OPTIONS,
        ))
    }

    #[tactic(auto, using(ttrpc_members::proofs::Groups::flat_written, ttrpc_members::proofs::Groups::flat_len))]
    fn write(&self, out: &mut Vec<u8>) -> Result<(), CodecError> {
        Single::<Utf8>::write(&self.id, CHECKPOINT_TASK_REQUEST_ID, out)?;
        Single::<Utf8>::write(&self.path, CHECKPOINT_TASK_REQUEST_PATH, out)?;
        Optional::<Nested<Any>>::write(&self.options, CHECKPOINT_TASK_REQUEST_OPTIONS, out)
    }

    fn lemma_is_value(&self) {
        Single::<Utf8>::lemma_is_value(&self.id);
        Single::<Utf8>::lemma_is_value(&self.path);
        Optional::<Nested<Any>>::lemma_is_value(&self.options);
    }

    ghost again = { checkpoint_task_request.laws.again checkpoint_task_request.valid };

    ghost fits = { checkpoint_task_request.laws.fits checkpoint_task_request.valid };
}

impl Named for CheckpointTaskRequest {
    ghost use Rattle.std.specs.Prelude.{codes};

    ghost full_name = { codes "containerd.task.v2.CheckpointTaskRequest" };

    fn full_name() -> &'static str {
        "containerd.task.v2.CheckpointTaskRequest"
    }
}

/// The message `containerd.task.v2.UpdateTaskRequest`.
#[derive(Drop)]
pub struct UpdateTaskRequest {
    /// Field 1.
    pub id: Text,
    /// Field 2.
    pub resources: Option<Any>,
    /// Field 3.
    pub annotations: Map<Text, Text>,
}

const UPDATE_TASK_REQUEST_ID: FieldNumber = FieldNumber { value: 1 };

const UPDATE_TASK_REQUEST_RESOURCES: FieldNumber = FieldNumber { value: 2 };

const UPDATE_TASK_REQUEST_ANNOTATIONS: FieldNumber = FieldNumber { value: 3 };

impl TryClone for UpdateTaskRequest {
    fn try_clone(&self) -> Result<UpdateTaskRequest, AllocError> {
        let id = Single::<Utf8>::try_clone(&self.id)?;
        let resources = Optional::<Nested<Any>>::try_clone(&self.resources)?;
        let annotations = MapOf::<Utf8, Utf8>::try_clone(&self.annotations)?;
        Ok(UpdateTaskRequest {
            id,
            resources,
            annotations,
        })
    }
}

impl WireMessage for UpdateTaskRequest {
    ghost use Rattle.shim_task_messages.specs.Messages.{update_task_request};

    ghost is_value = { update_task_request.part.is_value };

    ghost empty = { update_task_request.part.empty };

    ghost step = { update_task_request.part.step };

    ghost fields = { update_task_request.part.fields };

    fn new(alloc: Global) -> UpdateTaskRequest {
        UpdateTaskRequest {
            id: Single::<Utf8>::empty(alloc),
            resources: Optional::<Nested<Any>>::empty(alloc),
            annotations: MapOf::<Utf8, Utf8>::empty(alloc),
        }
    }

    fn put(&mut self, alloc: Global, field: Field<'_>) -> Result<(), CodecError> {
        match field.number.value {
            1 => Single::<Utf8>::take(&mut self.id, alloc, field.value),
            2 => Optional::<Nested<Any>>::take(&mut self.resources, alloc, field.value),
            3 => MapOf::<Utf8, Utf8>::take(&mut self.annotations, alloc, field.value),
            _ => Ok(()),
        }
    }

    #[tactic(auto, using(ttrpc_members::proofs::Groups::flat_measured))]
    fn length(&self) -> u64 {
        let len: u64 = 0;
        let len = len.saturating_add(Single::<Utf8>::length(&self.id, UPDATE_TASK_REQUEST_ID));
        let len = len.saturating_add(Optional::<Nested<Any>>::length(
            &self.resources,
            UPDATE_TASK_REQUEST_RESOURCES,
        ));
        len.saturating_add(MapOf::<Utf8, Utf8>::length(
            &self.annotations,
            UPDATE_TASK_REQUEST_ANNOTATIONS,
        ))
    }

    #[tactic(auto, using(ttrpc_members::proofs::Groups::flat_written, ttrpc_members::proofs::Groups::flat_len))]
    fn write(&self, out: &mut Vec<u8>) -> Result<(), CodecError> {
        Single::<Utf8>::write(&self.id, UPDATE_TASK_REQUEST_ID, out)?;
        Optional::<Nested<Any>>::write(&self.resources, UPDATE_TASK_REQUEST_RESOURCES, out)?;
        MapOf::<Utf8, Utf8>::write(&self.annotations, UPDATE_TASK_REQUEST_ANNOTATIONS, out)
    }

    fn lemma_is_value(&self) {
        Single::<Utf8>::lemma_is_value(&self.id);
        Optional::<Nested<Any>>::lemma_is_value(&self.resources);
        MapOf::<Utf8, Utf8>::lemma_is_value(&self.annotations);
    }

    ghost again = { update_task_request.laws.again update_task_request.valid };

    ghost fits = { update_task_request.laws.fits update_task_request.valid };
}

impl Named for UpdateTaskRequest {
    ghost use Rattle.std.specs.Prelude.{codes};

    ghost full_name = { codes "containerd.task.v2.UpdateTaskRequest" };

    fn full_name() -> &'static str {
        "containerd.task.v2.UpdateTaskRequest"
    }
}

/// The message `containerd.task.v2.StartRequest`.
#[derive(Drop)]
pub struct StartRequest {
    /// Field 1.
    pub id: Text,
    /// Field 2.
    pub exec_id: Text,
}

const START_REQUEST_ID: FieldNumber = FieldNumber { value: 1 };

const START_REQUEST_EXEC_ID: FieldNumber = FieldNumber { value: 2 };

impl TryClone for StartRequest {
    fn try_clone(&self) -> Result<StartRequest, AllocError> {
        let id = Single::<Utf8>::try_clone(&self.id)?;
        let exec_id = Single::<Utf8>::try_clone(&self.exec_id)?;
        Ok(StartRequest { id, exec_id })
    }
}

impl WireMessage for StartRequest {
    ghost use Rattle.shim_task_messages.specs.Messages.{start_request};

    ghost is_value = { start_request.part.is_value };

    ghost empty = { start_request.part.empty };

    ghost step = { start_request.part.step };

    ghost fields = { start_request.part.fields };

    fn new(alloc: Global) -> StartRequest {
        StartRequest {
            id: Single::<Utf8>::empty(alloc),
            exec_id: Single::<Utf8>::empty(alloc),
        }
    }

    fn put(&mut self, alloc: Global, field: Field<'_>) -> Result<(), CodecError> {
        match field.number.value {
            1 => Single::<Utf8>::take(&mut self.id, alloc, field.value),
            2 => Single::<Utf8>::take(&mut self.exec_id, alloc, field.value),
            _ => Ok(()),
        }
    }

    #[tactic(auto, using(ttrpc_members::proofs::Groups::flat_measured))]
    fn length(&self) -> u64 {
        let len: u64 = 0;
        let len = len.saturating_add(Single::<Utf8>::length(&self.id, START_REQUEST_ID));
        len.saturating_add(Single::<Utf8>::length(&self.exec_id, START_REQUEST_EXEC_ID))
    }

    #[tactic(auto, using(ttrpc_members::proofs::Groups::flat_written, ttrpc_members::proofs::Groups::flat_len))]
    fn write(&self, out: &mut Vec<u8>) -> Result<(), CodecError> {
        Single::<Utf8>::write(&self.id, START_REQUEST_ID, out)?;
        Single::<Utf8>::write(&self.exec_id, START_REQUEST_EXEC_ID, out)
    }

    fn lemma_is_value(&self) {
        Single::<Utf8>::lemma_is_value(&self.id);
        Single::<Utf8>::lemma_is_value(&self.exec_id);
    }

    ghost again = { start_request.laws.again start_request.valid };

    ghost fits = { start_request.laws.fits start_request.valid };
}

impl Named for StartRequest {
    ghost use Rattle.std.specs.Prelude.{codes};

    ghost full_name = { codes "containerd.task.v2.StartRequest" };

    fn full_name() -> &'static str {
        "containerd.task.v2.StartRequest"
    }
}

/// The message `containerd.task.v2.StartResponse`.
#[derive(Drop)]
pub struct StartResponse {
    /// Field 1.
    pub pid: u32,
}

const START_RESPONSE_PID: FieldNumber = FieldNumber { value: 1 };

impl TryClone for StartResponse {
    fn try_clone(&self) -> Result<StartResponse, AllocError> {
        Ok(StartResponse { pid: self.pid })
    }
}

impl WireMessage for StartResponse {
    ghost use Rattle.shim_task_messages.specs.Messages.{start_response};

    ghost is_value = { start_response.part.is_value };

    ghost empty = { start_response.part.empty };

    ghost step = { start_response.part.step };

    ghost fields = { start_response.part.fields };

    fn new(alloc: Global) -> StartResponse {
        StartResponse {
            pid: Single::<Uint32>::empty(alloc),
        }
    }

    fn put(&mut self, alloc: Global, field: Field<'_>) -> Result<(), CodecError> {
        match field.number.value {
            1 => Single::<Uint32>::take(&mut self.pid, alloc, field.value),
            _ => Ok(()),
        }
    }

    #[tactic(auto, using(ttrpc_members::proofs::Groups::flat_measured))]
    fn length(&self) -> u64 {
        let len: u64 = 0;
        len.saturating_add(Single::<Uint32>::length(&self.pid, START_RESPONSE_PID))
    }

    #[tactic(auto, using(ttrpc_members::proofs::Groups::flat_written, ttrpc_members::proofs::Groups::flat_len))]
    fn write(&self, out: &mut Vec<u8>) -> Result<(), CodecError> {
        Single::<Uint32>::write(&self.pid, START_RESPONSE_PID, out)
    }

    fn lemma_is_value(&self) {
        Single::<Uint32>::lemma_is_value(&self.pid);
    }

    ghost again = { start_response.laws.again start_response.valid };

    ghost fits = { start_response.laws.fits start_response.valid };
}

impl Named for StartResponse {
    ghost use Rattle.std.specs.Prelude.{codes};

    ghost full_name = { codes "containerd.task.v2.StartResponse" };

    fn full_name() -> &'static str {
        "containerd.task.v2.StartResponse"
    }
}

/// The message `containerd.task.v2.WaitRequest`.
#[derive(Drop)]
pub struct WaitRequest {
    /// Field 1.
    pub id: Text,
    /// Field 2.
    pub exec_id: Text,
}

const WAIT_REQUEST_ID: FieldNumber = FieldNumber { value: 1 };

const WAIT_REQUEST_EXEC_ID: FieldNumber = FieldNumber { value: 2 };

impl TryClone for WaitRequest {
    fn try_clone(&self) -> Result<WaitRequest, AllocError> {
        let id = Single::<Utf8>::try_clone(&self.id)?;
        let exec_id = Single::<Utf8>::try_clone(&self.exec_id)?;
        Ok(WaitRequest { id, exec_id })
    }
}

impl WireMessage for WaitRequest {
    ghost use Rattle.shim_task_messages.specs.Messages.{wait_request};

    ghost is_value = { wait_request.part.is_value };

    ghost empty = { wait_request.part.empty };

    ghost step = { wait_request.part.step };

    ghost fields = { wait_request.part.fields };

    fn new(alloc: Global) -> WaitRequest {
        WaitRequest {
            id: Single::<Utf8>::empty(alloc),
            exec_id: Single::<Utf8>::empty(alloc),
        }
    }

    fn put(&mut self, alloc: Global, field: Field<'_>) -> Result<(), CodecError> {
        match field.number.value {
            1 => Single::<Utf8>::take(&mut self.id, alloc, field.value),
            2 => Single::<Utf8>::take(&mut self.exec_id, alloc, field.value),
            _ => Ok(()),
        }
    }

    #[tactic(auto, using(ttrpc_members::proofs::Groups::flat_measured))]
    fn length(&self) -> u64 {
        let len: u64 = 0;
        let len = len.saturating_add(Single::<Utf8>::length(&self.id, WAIT_REQUEST_ID));
        len.saturating_add(Single::<Utf8>::length(&self.exec_id, WAIT_REQUEST_EXEC_ID))
    }

    #[tactic(auto, using(ttrpc_members::proofs::Groups::flat_written, ttrpc_members::proofs::Groups::flat_len))]
    fn write(&self, out: &mut Vec<u8>) -> Result<(), CodecError> {
        Single::<Utf8>::write(&self.id, WAIT_REQUEST_ID, out)?;
        Single::<Utf8>::write(&self.exec_id, WAIT_REQUEST_EXEC_ID, out)
    }

    fn lemma_is_value(&self) {
        Single::<Utf8>::lemma_is_value(&self.id);
        Single::<Utf8>::lemma_is_value(&self.exec_id);
    }

    ghost again = { wait_request.laws.again wait_request.valid };

    ghost fits = { wait_request.laws.fits wait_request.valid };
}

impl Named for WaitRequest {
    ghost use Rattle.std.specs.Prelude.{codes};

    ghost full_name = { codes "containerd.task.v2.WaitRequest" };

    fn full_name() -> &'static str {
        "containerd.task.v2.WaitRequest"
    }
}

/// The message `containerd.task.v2.WaitResponse`.
#[derive(Drop)]
pub struct WaitResponse {
    /// Field 1.
    pub exit_status: u32,
    /// Field 2.
    pub exited_at: Option<Timestamp>,
}

const WAIT_RESPONSE_EXIT_STATUS: FieldNumber = FieldNumber { value: 1 };

const WAIT_RESPONSE_EXITED_AT: FieldNumber = FieldNumber { value: 2 };

impl TryClone for WaitResponse {
    fn try_clone(&self) -> Result<WaitResponse, AllocError> {
        let exited_at = Optional::<Nested<Timestamp>>::try_clone(&self.exited_at)?;
        Ok(WaitResponse {
            exit_status: self.exit_status,
            exited_at,
        })
    }
}

impl WireMessage for WaitResponse {
    ghost use Rattle.shim_task_messages.specs.Messages.{wait_response};

    ghost is_value = { wait_response.part.is_value };

    ghost empty = { wait_response.part.empty };

    ghost step = { wait_response.part.step };

    ghost fields = { wait_response.part.fields };

    fn new(alloc: Global) -> WaitResponse {
        WaitResponse {
            exit_status: Single::<Uint32>::empty(alloc),
            exited_at: Optional::<Nested<Timestamp>>::empty(alloc),
        }
    }

    fn put(&mut self, alloc: Global, field: Field<'_>) -> Result<(), CodecError> {
        match field.number.value {
            1 => Single::<Uint32>::take(&mut self.exit_status, alloc, field.value),
            2 => Optional::<Nested<Timestamp>>::take(&mut self.exited_at, alloc, field.value),
            _ => Ok(()),
        }
    }

    #[tactic(auto, using(ttrpc_members::proofs::Groups::flat_measured))]
    fn length(&self) -> u64 {
        let len: u64 = 0;
        let len = len.saturating_add(Single::<Uint32>::length(
            &self.exit_status,
            WAIT_RESPONSE_EXIT_STATUS,
        ));
        len.saturating_add(Optional::<Nested<Timestamp>>::length(
            &self.exited_at,
            WAIT_RESPONSE_EXITED_AT,
        ))
    }

    #[tactic(auto, using(ttrpc_members::proofs::Groups::flat_written, ttrpc_members::proofs::Groups::flat_len))]
    fn write(&self, out: &mut Vec<u8>) -> Result<(), CodecError> {
        Single::<Uint32>::write(&self.exit_status, WAIT_RESPONSE_EXIT_STATUS, out)?;
        Optional::<Nested<Timestamp>>::write(&self.exited_at, WAIT_RESPONSE_EXITED_AT, out)
    }

    fn lemma_is_value(&self) {
        Single::<Uint32>::lemma_is_value(&self.exit_status);
        Optional::<Nested<Timestamp>>::lemma_is_value(&self.exited_at);
    }

    ghost again = { wait_response.laws.again wait_response.valid };

    ghost fits = { wait_response.laws.fits wait_response.valid };
}

impl Named for WaitResponse {
    ghost use Rattle.std.specs.Prelude.{codes};

    ghost full_name = { codes "containerd.task.v2.WaitResponse" };

    fn full_name() -> &'static str {
        "containerd.task.v2.WaitResponse"
    }
}

/// The message `containerd.task.v2.StatsRequest`.
#[derive(Drop)]
pub struct StatsRequest {
    /// Field 1.
    pub id: Text,
}

const STATS_REQUEST_ID: FieldNumber = FieldNumber { value: 1 };

impl TryClone for StatsRequest {
    fn try_clone(&self) -> Result<StatsRequest, AllocError> {
        let id = Single::<Utf8>::try_clone(&self.id)?;
        Ok(StatsRequest { id })
    }
}

impl WireMessage for StatsRequest {
    ghost use Rattle.shim_task_messages.specs.Messages.{stats_request};

    ghost is_value = { stats_request.part.is_value };

    ghost empty = { stats_request.part.empty };

    ghost step = { stats_request.part.step };

    ghost fields = { stats_request.part.fields };

    fn new(alloc: Global) -> StatsRequest {
        StatsRequest {
            id: Single::<Utf8>::empty(alloc),
        }
    }

    fn put(&mut self, alloc: Global, field: Field<'_>) -> Result<(), CodecError> {
        match field.number.value {
            1 => Single::<Utf8>::take(&mut self.id, alloc, field.value),
            _ => Ok(()),
        }
    }

    #[tactic(auto, using(ttrpc_members::proofs::Groups::flat_measured))]
    fn length(&self) -> u64 {
        let len: u64 = 0;
        len.saturating_add(Single::<Utf8>::length(&self.id, STATS_REQUEST_ID))
    }

    #[tactic(auto, using(ttrpc_members::proofs::Groups::flat_written, ttrpc_members::proofs::Groups::flat_len))]
    fn write(&self, out: &mut Vec<u8>) -> Result<(), CodecError> {
        Single::<Utf8>::write(&self.id, STATS_REQUEST_ID, out)
    }

    fn lemma_is_value(&self) {
        Single::<Utf8>::lemma_is_value(&self.id);
    }

    ghost again = { stats_request.laws.again stats_request.valid };

    ghost fits = { stats_request.laws.fits stats_request.valid };
}

impl Named for StatsRequest {
    ghost use Rattle.std.specs.Prelude.{codes};

    ghost full_name = { codes "containerd.task.v2.StatsRequest" };

    fn full_name() -> &'static str {
        "containerd.task.v2.StatsRequest"
    }
}

/// The message `containerd.task.v2.StatsResponse`.
#[derive(Drop)]
pub struct StatsResponse {
    /// Field 1.
    pub stats: Option<Any>,
}

const STATS_RESPONSE_STATS: FieldNumber = FieldNumber { value: 1 };

impl TryClone for StatsResponse {
    fn try_clone(&self) -> Result<StatsResponse, AllocError> {
        let stats = Optional::<Nested<Any>>::try_clone(&self.stats)?;
        Ok(StatsResponse { stats })
    }
}

impl WireMessage for StatsResponse {
    ghost use Rattle.shim_task_messages.specs.Messages.{stats_response};

    ghost is_value = { stats_response.part.is_value };

    ghost empty = { stats_response.part.empty };

    ghost step = { stats_response.part.step };

    ghost fields = { stats_response.part.fields };

    fn new(alloc: Global) -> StatsResponse {
        StatsResponse {
            stats: Optional::<Nested<Any>>::empty(alloc),
        }
    }

    fn put(&mut self, alloc: Global, field: Field<'_>) -> Result<(), CodecError> {
        match field.number.value {
            1 => Optional::<Nested<Any>>::take(&mut self.stats, alloc, field.value),
            _ => Ok(()),
        }
    }

    #[tactic(auto, using(ttrpc_members::proofs::Groups::flat_measured))]
    fn length(&self) -> u64 {
        let len: u64 = 0;
        len.saturating_add(Optional::<Nested<Any>>::length(&self.stats, STATS_RESPONSE_STATS))
    }

    #[tactic(auto, using(ttrpc_members::proofs::Groups::flat_written, ttrpc_members::proofs::Groups::flat_len))]
    fn write(&self, out: &mut Vec<u8>) -> Result<(), CodecError> {
        Optional::<Nested<Any>>::write(&self.stats, STATS_RESPONSE_STATS, out)
    }

    fn lemma_is_value(&self) {
        Optional::<Nested<Any>>::lemma_is_value(&self.stats);
    }

    ghost again = { stats_response.laws.again stats_response.valid };

    ghost fits = { stats_response.laws.fits stats_response.valid };
}

impl Named for StatsResponse {
    ghost use Rattle.std.specs.Prelude.{codes};

    ghost full_name = { codes "containerd.task.v2.StatsResponse" };

    fn full_name() -> &'static str {
        "containerd.task.v2.StatsResponse"
    }
}

/// The message `containerd.task.v2.ConnectRequest`.
#[derive(Drop)]
pub struct ConnectRequest {
    /// Field 1.
    pub id: Text,
}

const CONNECT_REQUEST_ID: FieldNumber = FieldNumber { value: 1 };

impl TryClone for ConnectRequest {
    fn try_clone(&self) -> Result<ConnectRequest, AllocError> {
        let id = Single::<Utf8>::try_clone(&self.id)?;
        Ok(ConnectRequest { id })
    }
}

impl WireMessage for ConnectRequest {
    ghost use Rattle.shim_task_messages.specs.Messages.{connect_request};

    ghost is_value = { connect_request.part.is_value };

    ghost empty = { connect_request.part.empty };

    ghost step = { connect_request.part.step };

    ghost fields = { connect_request.part.fields };

    fn new(alloc: Global) -> ConnectRequest {
        ConnectRequest {
            id: Single::<Utf8>::empty(alloc),
        }
    }

    fn put(&mut self, alloc: Global, field: Field<'_>) -> Result<(), CodecError> {
        match field.number.value {
            1 => Single::<Utf8>::take(&mut self.id, alloc, field.value),
            _ => Ok(()),
        }
    }

    #[tactic(auto, using(ttrpc_members::proofs::Groups::flat_measured))]
    fn length(&self) -> u64 {
        let len: u64 = 0;
        len.saturating_add(Single::<Utf8>::length(&self.id, CONNECT_REQUEST_ID))
    }

    #[tactic(auto, using(ttrpc_members::proofs::Groups::flat_written, ttrpc_members::proofs::Groups::flat_len))]
    fn write(&self, out: &mut Vec<u8>) -> Result<(), CodecError> {
        Single::<Utf8>::write(&self.id, CONNECT_REQUEST_ID, out)
    }

    fn lemma_is_value(&self) {
        Single::<Utf8>::lemma_is_value(&self.id);
    }

    ghost again = { connect_request.laws.again connect_request.valid };

    ghost fits = { connect_request.laws.fits connect_request.valid };
}

impl Named for ConnectRequest {
    ghost use Rattle.std.specs.Prelude.{codes};

    ghost full_name = { codes "containerd.task.v2.ConnectRequest" };

    fn full_name() -> &'static str {
        "containerd.task.v2.ConnectRequest"
    }
}

/// The message `containerd.task.v2.ConnectResponse`.
#[derive(Drop)]
pub struct ConnectResponse {
    /// Field 1.
    pub shim_pid: u32,
    /// Field 2.
    pub task_pid: u32,
    /// Field 3.
    pub version: Text,
}

const CONNECT_RESPONSE_SHIM_PID: FieldNumber = FieldNumber { value: 1 };

const CONNECT_RESPONSE_TASK_PID: FieldNumber = FieldNumber { value: 2 };

const CONNECT_RESPONSE_VERSION: FieldNumber = FieldNumber { value: 3 };

impl TryClone for ConnectResponse {
    fn try_clone(&self) -> Result<ConnectResponse, AllocError> {
        let version = Single::<Utf8>::try_clone(&self.version)?;
        Ok(ConnectResponse {
            shim_pid: self.shim_pid,
            task_pid: self.task_pid,
            version,
        })
    }
}

impl WireMessage for ConnectResponse {
    ghost use Rattle.shim_task_messages.specs.Messages.{connect_response};

    ghost is_value = { connect_response.part.is_value };

    ghost empty = { connect_response.part.empty };

    ghost step = { connect_response.part.step };

    ghost fields = { connect_response.part.fields };

    fn new(alloc: Global) -> ConnectResponse {
        ConnectResponse {
            shim_pid: Single::<Uint32>::empty(alloc),
            task_pid: Single::<Uint32>::empty(alloc),
            version: Single::<Utf8>::empty(alloc),
        }
    }

    fn put(&mut self, alloc: Global, field: Field<'_>) -> Result<(), CodecError> {
        match field.number.value {
            1 => Single::<Uint32>::take(&mut self.shim_pid, alloc, field.value),
            2 => Single::<Uint32>::take(&mut self.task_pid, alloc, field.value),
            3 => Single::<Utf8>::take(&mut self.version, alloc, field.value),
            _ => Ok(()),
        }
    }

    #[tactic(auto, using(ttrpc_members::proofs::Groups::flat_measured))]
    fn length(&self) -> u64 {
        let len: u64 = 0;
        let len = len.saturating_add(Single::<Uint32>::length(
            &self.shim_pid,
            CONNECT_RESPONSE_SHIM_PID,
        ));
        let len = len.saturating_add(Single::<Uint32>::length(
            &self.task_pid,
            CONNECT_RESPONSE_TASK_PID,
        ));
        len.saturating_add(Single::<Utf8>::length(&self.version, CONNECT_RESPONSE_VERSION))
    }

    #[tactic(auto, using(ttrpc_members::proofs::Groups::flat_written, ttrpc_members::proofs::Groups::flat_len))]
    fn write(&self, out: &mut Vec<u8>) -> Result<(), CodecError> {
        Single::<Uint32>::write(&self.shim_pid, CONNECT_RESPONSE_SHIM_PID, out)?;
        Single::<Uint32>::write(&self.task_pid, CONNECT_RESPONSE_TASK_PID, out)?;
        Single::<Utf8>::write(&self.version, CONNECT_RESPONSE_VERSION, out)
    }

    fn lemma_is_value(&self) {
        Single::<Uint32>::lemma_is_value(&self.shim_pid);
        Single::<Uint32>::lemma_is_value(&self.task_pid);
        Single::<Utf8>::lemma_is_value(&self.version);
    }

    ghost again = { connect_response.laws.again connect_response.valid };

    ghost fits = { connect_response.laws.fits connect_response.valid };
}

impl Named for ConnectResponse {
    ghost use Rattle.std.specs.Prelude.{codes};

    ghost full_name = { codes "containerd.task.v2.ConnectResponse" };

    fn full_name() -> &'static str {
        "containerd.task.v2.ConnectResponse"
    }
}

/// The message `containerd.task.v2.ShutdownRequest`.
#[derive(Drop)]
pub struct ShutdownRequest {
    /// Field 1.
    pub id: Text,
    /// Field 2.
    pub now: bool,
}

const SHUTDOWN_REQUEST_ID: FieldNumber = FieldNumber { value: 1 };

const SHUTDOWN_REQUEST_NOW: FieldNumber = FieldNumber { value: 2 };

impl TryClone for ShutdownRequest {
    fn try_clone(&self) -> Result<ShutdownRequest, AllocError> {
        let id = Single::<Utf8>::try_clone(&self.id)?;
        Ok(ShutdownRequest { id, now: self.now })
    }
}

impl WireMessage for ShutdownRequest {
    ghost use Rattle.shim_task_messages.specs.Messages.{shutdown_request};

    ghost is_value = { shutdown_request.part.is_value };

    ghost empty = { shutdown_request.part.empty };

    ghost step = { shutdown_request.part.step };

    ghost fields = { shutdown_request.part.fields };

    fn new(alloc: Global) -> ShutdownRequest {
        ShutdownRequest {
            id: Single::<Utf8>::empty(alloc),
            now: Single::<Boolean>::empty(alloc),
        }
    }

    fn put(&mut self, alloc: Global, field: Field<'_>) -> Result<(), CodecError> {
        match field.number.value {
            1 => Single::<Utf8>::take(&mut self.id, alloc, field.value),
            2 => Single::<Boolean>::take(&mut self.now, alloc, field.value),
            _ => Ok(()),
        }
    }

    #[tactic(auto, using(ttrpc_members::proofs::Groups::flat_measured))]
    fn length(&self) -> u64 {
        let len: u64 = 0;
        let len = len.saturating_add(Single::<Utf8>::length(&self.id, SHUTDOWN_REQUEST_ID));
        len.saturating_add(Single::<Boolean>::length(&self.now, SHUTDOWN_REQUEST_NOW))
    }

    #[tactic(auto, using(ttrpc_members::proofs::Groups::flat_written, ttrpc_members::proofs::Groups::flat_len))]
    fn write(&self, out: &mut Vec<u8>) -> Result<(), CodecError> {
        Single::<Utf8>::write(&self.id, SHUTDOWN_REQUEST_ID, out)?;
        Single::<Boolean>::write(&self.now, SHUTDOWN_REQUEST_NOW, out)
    }

    fn lemma_is_value(&self) {
        Single::<Utf8>::lemma_is_value(&self.id);
        Single::<Boolean>::lemma_is_value(&self.now);
    }

    ghost again = { shutdown_request.laws.again shutdown_request.valid };

    ghost fits = { shutdown_request.laws.fits shutdown_request.valid };
}

impl Named for ShutdownRequest {
    ghost use Rattle.std.specs.Prelude.{codes};

    ghost full_name = { codes "containerd.task.v2.ShutdownRequest" };

    fn full_name() -> &'static str {
        "containerd.task.v2.ShutdownRequest"
    }
}

/// The message `containerd.task.v2.PauseRequest`.
#[derive(Drop)]
pub struct PauseRequest {
    /// Field 1.
    pub id: Text,
}

const PAUSE_REQUEST_ID: FieldNumber = FieldNumber { value: 1 };

impl TryClone for PauseRequest {
    fn try_clone(&self) -> Result<PauseRequest, AllocError> {
        let id = Single::<Utf8>::try_clone(&self.id)?;
        Ok(PauseRequest { id })
    }
}

impl WireMessage for PauseRequest {
    ghost use Rattle.shim_task_messages.specs.Messages.{pause_request};

    ghost is_value = { pause_request.part.is_value };

    ghost empty = { pause_request.part.empty };

    ghost step = { pause_request.part.step };

    ghost fields = { pause_request.part.fields };

    fn new(alloc: Global) -> PauseRequest {
        PauseRequest {
            id: Single::<Utf8>::empty(alloc),
        }
    }

    fn put(&mut self, alloc: Global, field: Field<'_>) -> Result<(), CodecError> {
        match field.number.value {
            1 => Single::<Utf8>::take(&mut self.id, alloc, field.value),
            _ => Ok(()),
        }
    }

    #[tactic(auto, using(ttrpc_members::proofs::Groups::flat_measured))]
    fn length(&self) -> u64 {
        let len: u64 = 0;
        len.saturating_add(Single::<Utf8>::length(&self.id, PAUSE_REQUEST_ID))
    }

    #[tactic(auto, using(ttrpc_members::proofs::Groups::flat_written, ttrpc_members::proofs::Groups::flat_len))]
    fn write(&self, out: &mut Vec<u8>) -> Result<(), CodecError> {
        Single::<Utf8>::write(&self.id, PAUSE_REQUEST_ID, out)
    }

    fn lemma_is_value(&self) {
        Single::<Utf8>::lemma_is_value(&self.id);
    }

    ghost again = { pause_request.laws.again pause_request.valid };

    ghost fits = { pause_request.laws.fits pause_request.valid };
}

impl Named for PauseRequest {
    ghost use Rattle.std.specs.Prelude.{codes};

    ghost full_name = { codes "containerd.task.v2.PauseRequest" };

    fn full_name() -> &'static str {
        "containerd.task.v2.PauseRequest"
    }
}

/// The message `containerd.task.v2.ResumeRequest`.
#[derive(Drop)]
pub struct ResumeRequest {
    /// Field 1.
    pub id: Text,
}

const RESUME_REQUEST_ID: FieldNumber = FieldNumber { value: 1 };

impl TryClone for ResumeRequest {
    fn try_clone(&self) -> Result<ResumeRequest, AllocError> {
        let id = Single::<Utf8>::try_clone(&self.id)?;
        Ok(ResumeRequest { id })
    }
}

impl WireMessage for ResumeRequest {
    ghost use Rattle.shim_task_messages.specs.Messages.{resume_request};

    ghost is_value = { resume_request.part.is_value };

    ghost empty = { resume_request.part.empty };

    ghost step = { resume_request.part.step };

    ghost fields = { resume_request.part.fields };

    fn new(alloc: Global) -> ResumeRequest {
        ResumeRequest {
            id: Single::<Utf8>::empty(alloc),
        }
    }

    fn put(&mut self, alloc: Global, field: Field<'_>) -> Result<(), CodecError> {
        match field.number.value {
            1 => Single::<Utf8>::take(&mut self.id, alloc, field.value),
            _ => Ok(()),
        }
    }

    #[tactic(auto, using(ttrpc_members::proofs::Groups::flat_measured))]
    fn length(&self) -> u64 {
        let len: u64 = 0;
        len.saturating_add(Single::<Utf8>::length(&self.id, RESUME_REQUEST_ID))
    }

    #[tactic(auto, using(ttrpc_members::proofs::Groups::flat_written, ttrpc_members::proofs::Groups::flat_len))]
    fn write(&self, out: &mut Vec<u8>) -> Result<(), CodecError> {
        Single::<Utf8>::write(&self.id, RESUME_REQUEST_ID, out)
    }

    fn lemma_is_value(&self) {
        Single::<Utf8>::lemma_is_value(&self.id);
    }

    ghost again = { resume_request.laws.again resume_request.valid };

    ghost fits = { resume_request.laws.fits resume_request.valid };
}

impl Named for ResumeRequest {
    ghost use Rattle.std.specs.Prelude.{codes};

    ghost full_name = { codes "containerd.task.v2.ResumeRequest" };

    fn full_name() -> &'static str {
        "containerd.task.v2.ResumeRequest"
    }
}
