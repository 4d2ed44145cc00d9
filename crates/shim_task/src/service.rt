//! The services of shim.proto: for each a trait, the handlers of its methods, and a client.
//! Written by tools/messages --each -I ../../tools/trees/containerd/src -I ../../tools/trees/containerd/gogo from ../../tools/trees/containerd/src/github.com/containerd/containerd/api/runtime/task/v2/shim.proto: change that, and run the tool.

use shim_task_messages::messages::{
    CheckpointTaskRequest, CloseIORequest, ConnectRequest, ConnectResponse, CreateTaskRequest,
    CreateTaskResponse, DeleteRequest, DeleteResponse, ExecProcessRequest, KillRequest,
    PauseRequest, PidsRequest, PidsResponse, ResizePtyRequest, ResumeRequest, ShutdownRequest,
    StartRequest, StartResponse, StateRequest, StateResponse, StatsRequest, StatsResponse,
    UpdateTaskRequest, WaitRequest, WaitResponse,
};
use std::alloc::Global;
use std::collections::BTreeMap;
use std::sync::Arc;
use ttrpc::context::Context;
use ttrpc::proto::WireMessage;
use ttrpc::security_extension::Plain;
use ttrpc::sync::Host;
use ttrpc::{
    Client, MethodHandler, Request, Result, TtrpcContext, client_request, request_handler,
};
use ttrpc_well_known::messages::Empty;

/// What a shim does for containerd.
pub trait Task<R: Host>: Drop {
    /// Answers `State`.
    fn state(
        &self,
        ctx: &TtrpcContext<R, Plain, Plain>,
        request: StateRequest,
    ) -> Result<StateResponse>;

    /// Answers `Create`.
    fn create(
        &self,
        ctx: &TtrpcContext<R, Plain, Plain>,
        request: CreateTaskRequest,
    ) -> Result<CreateTaskResponse>;

    /// Answers `Start`.
    fn start(
        &self,
        ctx: &TtrpcContext<R, Plain, Plain>,
        request: StartRequest,
    ) -> Result<StartResponse>;

    /// Answers `Delete`.
    fn delete(
        &self,
        ctx: &TtrpcContext<R, Plain, Plain>,
        request: DeleteRequest,
    ) -> Result<DeleteResponse>;

    /// Answers `Pids`.
    fn pids(
        &self,
        ctx: &TtrpcContext<R, Plain, Plain>,
        request: PidsRequest,
    ) -> Result<PidsResponse>;

    /// Answers `Pause`.
    fn pause(&self, ctx: &TtrpcContext<R, Plain, Plain>, request: PauseRequest) -> Result<Empty>;

    /// Answers `Resume`.
    fn resume(&self, ctx: &TtrpcContext<R, Plain, Plain>, request: ResumeRequest) -> Result<Empty>;

    /// Answers `Checkpoint`.
    fn checkpoint(
        &self,
        ctx: &TtrpcContext<R, Plain, Plain>,
        request: CheckpointTaskRequest,
    ) -> Result<Empty>;

    /// Answers `Kill`.
    fn kill(&self, ctx: &TtrpcContext<R, Plain, Plain>, request: KillRequest) -> Result<Empty>;

    /// Answers `Exec`.
    fn exec(
        &self,
        ctx: &TtrpcContext<R, Plain, Plain>,
        request: ExecProcessRequest,
    ) -> Result<Empty>;

    /// Answers `ResizePty`.
    fn resize_pty(
        &self,
        ctx: &TtrpcContext<R, Plain, Plain>,
        request: ResizePtyRequest,
    ) -> Result<Empty>;

    /// Answers `CloseIO`.
    fn close_io(
        &self,
        ctx: &TtrpcContext<R, Plain, Plain>,
        request: CloseIORequest,
    ) -> Result<Empty>;

    /// Answers `Update`.
    fn update(
        &self,
        ctx: &TtrpcContext<R, Plain, Plain>,
        request: UpdateTaskRequest,
    ) -> Result<Empty>;

    /// Answers `Wait`.
    fn wait(
        &self,
        ctx: &TtrpcContext<R, Plain, Plain>,
        request: WaitRequest,
    ) -> Result<WaitResponse>;

    /// Answers `Stats`.
    fn stats(
        &self,
        ctx: &TtrpcContext<R, Plain, Plain>,
        request: StatsRequest,
    ) -> Result<StatsResponse>;

    /// Answers `Connect`.
    fn connect(
        &self,
        ctx: &TtrpcContext<R, Plain, Plain>,
        request: ConnectRequest,
    ) -> Result<ConnectResponse>;

    /// Answers `Shutdown`.
    fn shutdown(
        &self,
        ctx: &TtrpcContext<R, Plain, Plain>,
        request: ShutdownRequest,
    ) -> Result<Empty>;
}

/// Which method of `containerd.task.v2.Task` is called.
#[derive(Clone, Copy)]
enum TaskCall {
    State,
    Create,
    Start,
    Delete,
    Pids,
    Pause,
    Resume,
    Checkpoint,
    Kill,
    Exec,
    ResizePty,
    CloseIO,
    Update,
    Wait,
    Stats,
    Connect,
    Shutdown,
}

/// The handler of a method of `containerd.task.v2.Task`.
#[derive(Drop)]
pub struct TaskMethod<S: Drop> {
    service: Arc<S, Global>,
    call: TaskCall,
}

impl<R: Host, S: Task<R>> MethodHandler<R, Plain, Plain> for TaskMethod<S> {
    fn handler(&self, ctx: TtrpcContext<R, Plain, Plain>, req: Request) -> Result<()> {
        match self.call {
            TaskCall::State => {
                request_handler!(self, ctx, req, StateRequest, state);
            }
            TaskCall::Create => {
                request_handler!(self, ctx, req, CreateTaskRequest, create);
            }
            TaskCall::Start => {
                request_handler!(self, ctx, req, StartRequest, start);
            }
            TaskCall::Delete => {
                request_handler!(self, ctx, req, DeleteRequest, delete);
            }
            TaskCall::Pids => {
                request_handler!(self, ctx, req, PidsRequest, pids);
            }
            TaskCall::Pause => {
                request_handler!(self, ctx, req, PauseRequest, pause);
            }
            TaskCall::Resume => {
                request_handler!(self, ctx, req, ResumeRequest, resume);
            }
            TaskCall::Checkpoint => {
                request_handler!(self, ctx, req, CheckpointTaskRequest, checkpoint);
            }
            TaskCall::Kill => {
                request_handler!(self, ctx, req, KillRequest, kill);
            }
            TaskCall::Exec => {
                request_handler!(self, ctx, req, ExecProcessRequest, exec);
            }
            TaskCall::ResizePty => {
                request_handler!(self, ctx, req, ResizePtyRequest, resize_pty);
            }
            TaskCall::CloseIO => {
                request_handler!(self, ctx, req, CloseIORequest, close_io);
            }
            TaskCall::Update => {
                request_handler!(self, ctx, req, UpdateTaskRequest, update);
            }
            TaskCall::Wait => {
                request_handler!(self, ctx, req, WaitRequest, wait);
            }
            TaskCall::Stats => {
                request_handler!(self, ctx, req, StatsRequest, stats);
            }
            TaskCall::Connect => {
                request_handler!(self, ctx, req, ConnectRequest, connect);
            }
            TaskCall::Shutdown => {
                request_handler!(self, ctx, req, ShutdownRequest, shutdown);
            }
        }
        Ok(())
    }
}

/// The path of each method of `containerd.task.v2.Task`.
const TASK_PATHS: &[(&str, TaskCall)] = &[
    ("/containerd.task.v2.Task/State", TaskCall::State),
    ("/containerd.task.v2.Task/Create", TaskCall::Create),
    ("/containerd.task.v2.Task/Start", TaskCall::Start),
    ("/containerd.task.v2.Task/Delete", TaskCall::Delete),
    ("/containerd.task.v2.Task/Pids", TaskCall::Pids),
    ("/containerd.task.v2.Task/Pause", TaskCall::Pause),
    ("/containerd.task.v2.Task/Resume", TaskCall::Resume),
    ("/containerd.task.v2.Task/Checkpoint", TaskCall::Checkpoint),
    ("/containerd.task.v2.Task/Kill", TaskCall::Kill),
    ("/containerd.task.v2.Task/Exec", TaskCall::Exec),
    ("/containerd.task.v2.Task/ResizePty", TaskCall::ResizePty),
    ("/containerd.task.v2.Task/CloseIO", TaskCall::CloseIO),
    ("/containerd.task.v2.Task/Update", TaskCall::Update),
    ("/containerd.task.v2.Task/Wait", TaskCall::Wait),
    ("/containerd.task.v2.Task/Stats", TaskCall::Stats),
    ("/containerd.task.v2.Task/Connect", TaskCall::Connect),
    ("/containerd.task.v2.Task/Shutdown", TaskCall::Shutdown),
];

/// The methods of `containerd.task.v2.Task`, each under its path, for `Server::register_service`.
pub fn task_methods<S: Drop>(alloc: Global, service: S) -> Result<BTreeMap<String, TaskMethod<S>>> {
    let whole = Arc::new(alloc, service)?;
    let mut methods = BTreeMap::new(alloc);
    for (path, call) in TASK_PATHS {
        let (service, call) = (Arc::try_clone(&whole)?, *call);
        let path = String::from_str(alloc, path)?;
        methods.insert(path, TaskMethod { service, call })?;
    }
    Ok(methods)
}

/// A client of `containerd.task.v2.Task`.
#[derive(Drop)]
pub struct TaskClient<R: Host> {
    pub client: Client<R, Plain, Plain>,
}

impl<R: Host> TaskClient<R> {
    /// Calls `State`, and waits for its response.
    pub fn state(&self, ctx: Context, request: &StateRequest) -> Result<StateResponse> {
        let mut reply = StateResponse::new(self.client.alloc());
        client_request!(
            self,
            ctx,
            request,
            "containerd.task.v2.Task",
            "State",
            reply
        );
        Ok(reply)
    }

    /// Calls `Create`, and waits for its response.
    pub fn create(&self, ctx: Context, request: &CreateTaskRequest) -> Result<CreateTaskResponse> {
        let mut reply = CreateTaskResponse::new(self.client.alloc());
        client_request!(
            self,
            ctx,
            request,
            "containerd.task.v2.Task",
            "Create",
            reply
        );
        Ok(reply)
    }

    /// Calls `Start`, and waits for its response.
    pub fn start(&self, ctx: Context, request: &StartRequest) -> Result<StartResponse> {
        let mut reply = StartResponse::new(self.client.alloc());
        client_request!(
            self,
            ctx,
            request,
            "containerd.task.v2.Task",
            "Start",
            reply
        );
        Ok(reply)
    }

    /// Calls `Delete`, and waits for its response.
    pub fn delete(&self, ctx: Context, request: &DeleteRequest) -> Result<DeleteResponse> {
        let mut reply = DeleteResponse::new(self.client.alloc());
        client_request!(
            self,
            ctx,
            request,
            "containerd.task.v2.Task",
            "Delete",
            reply
        );
        Ok(reply)
    }

    /// Calls `Pids`, and waits for its response.
    pub fn pids(&self, ctx: Context, request: &PidsRequest) -> Result<PidsResponse> {
        let mut reply = PidsResponse::new(self.client.alloc());
        client_request!(self, ctx, request, "containerd.task.v2.Task", "Pids", reply);
        Ok(reply)
    }

    /// Calls `Pause`, and waits for its response.
    pub fn pause(&self, ctx: Context, request: &PauseRequest) -> Result<Empty> {
        let mut reply = Empty::new(self.client.alloc());
        client_request!(
            self,
            ctx,
            request,
            "containerd.task.v2.Task",
            "Pause",
            reply
        );
        Ok(reply)
    }

    /// Calls `Resume`, and waits for its response.
    pub fn resume(&self, ctx: Context, request: &ResumeRequest) -> Result<Empty> {
        let mut reply = Empty::new(self.client.alloc());
        client_request!(
            self,
            ctx,
            request,
            "containerd.task.v2.Task",
            "Resume",
            reply
        );
        Ok(reply)
    }

    /// Calls `Checkpoint`, and waits for its response.
    pub fn checkpoint(&self, ctx: Context, request: &CheckpointTaskRequest) -> Result<Empty> {
        let mut reply = Empty::new(self.client.alloc());
        client_request!(
            self,
            ctx,
            request,
            "containerd.task.v2.Task",
            "Checkpoint",
            reply
        );
        Ok(reply)
    }

    /// Calls `Kill`, and waits for its response.
    pub fn kill(&self, ctx: Context, request: &KillRequest) -> Result<Empty> {
        let mut reply = Empty::new(self.client.alloc());
        client_request!(self, ctx, request, "containerd.task.v2.Task", "Kill", reply);
        Ok(reply)
    }

    /// Calls `Exec`, and waits for its response.
    pub fn exec(&self, ctx: Context, request: &ExecProcessRequest) -> Result<Empty> {
        let mut reply = Empty::new(self.client.alloc());
        client_request!(self, ctx, request, "containerd.task.v2.Task", "Exec", reply);
        Ok(reply)
    }

    /// Calls `ResizePty`, and waits for its response.
    pub fn resize_pty(&self, ctx: Context, request: &ResizePtyRequest) -> Result<Empty> {
        let mut reply = Empty::new(self.client.alloc());
        client_request!(
            self,
            ctx,
            request,
            "containerd.task.v2.Task",
            "ResizePty",
            reply
        );
        Ok(reply)
    }

    /// Calls `CloseIO`, and waits for its response.
    pub fn close_io(&self, ctx: Context, request: &CloseIORequest) -> Result<Empty> {
        let mut reply = Empty::new(self.client.alloc());
        client_request!(
            self,
            ctx,
            request,
            "containerd.task.v2.Task",
            "CloseIO",
            reply
        );
        Ok(reply)
    }

    /// Calls `Update`, and waits for its response.
    pub fn update(&self, ctx: Context, request: &UpdateTaskRequest) -> Result<Empty> {
        let mut reply = Empty::new(self.client.alloc());
        client_request!(
            self,
            ctx,
            request,
            "containerd.task.v2.Task",
            "Update",
            reply
        );
        Ok(reply)
    }

    /// Calls `Wait`, and waits for its response.
    pub fn wait(&self, ctx: Context, request: &WaitRequest) -> Result<WaitResponse> {
        let mut reply = WaitResponse::new(self.client.alloc());
        client_request!(self, ctx, request, "containerd.task.v2.Task", "Wait", reply);
        Ok(reply)
    }

    /// Calls `Stats`, and waits for its response.
    pub fn stats(&self, ctx: Context, request: &StatsRequest) -> Result<StatsResponse> {
        let mut reply = StatsResponse::new(self.client.alloc());
        client_request!(
            self,
            ctx,
            request,
            "containerd.task.v2.Task",
            "Stats",
            reply
        );
        Ok(reply)
    }

    /// Calls `Connect`, and waits for its response.
    pub fn connect(&self, ctx: Context, request: &ConnectRequest) -> Result<ConnectResponse> {
        let mut reply = ConnectResponse::new(self.client.alloc());
        client_request!(
            self,
            ctx,
            request,
            "containerd.task.v2.Task",
            "Connect",
            reply
        );
        Ok(reply)
    }

    /// Calls `Shutdown`, and waits for its response.
    pub fn shutdown(&self, ctx: Context, request: &ShutdownRequest) -> Result<Empty> {
        let mut reply = Empty::new(self.client.alloc());
        client_request!(
            self,
            ctx,
            request,
            "containerd.task.v2.Task",
            "Shutdown",
            reply
        );
        Ok(reply)
    }

    /// Another client of the same connection, for another thread.
    pub fn try_clone(&self) -> Result<TaskClient<R>> {
        let client = self.client.try_clone()?;
        Ok(TaskClient { client })
    }
}
