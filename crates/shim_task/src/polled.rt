//! The services of shim.proto for polled ends: for each a trait, the handlers of its methods and streams, and a client.
//! Written by tools/messages --each -I ../../tools/trees/containerd/src -I ../../tools/trees/containerd/gogo from ../../tools/trees/containerd/src/github.com/containerd/containerd/api/runtime/task/v2/shim.proto: change that, and run the tool.

use futures::Future;
use futures::future::Either;
use shim_task_messages::messages::{
    CheckpointTaskRequest, CloseIORequest, ConnectRequest, ConnectResponse, CreateTaskRequest,
    CreateTaskResponse, DeleteRequest, DeleteResponse, ExecProcessRequest, KillRequest,
    PauseRequest, PidsRequest, PidsResponse, ResizePtyRequest, ResumeRequest, ShutdownRequest,
    StartRequest, StartResponse, StateRequest, StateResponse, StatsRequest, StatsResponse,
    UpdateTaskRequest, WaitRequest, WaitResponse,
};
use std::alloc::Global;
use std::collections::BTreeMap;
use std::sync::Arc;
use ttrpc::asynchronous::{
    Client, ClientCall, Handling, MethodHandler, NoStreams, Responds, Service, Timed, TtrpcContext,
    async_client_request, async_request_handler,
};
use ttrpc::context::Context;
use ttrpc::proto::WireMessage;
use ttrpc::security_extension::Plain;
use ttrpc::{Request, Result};
use ttrpc_well_known::messages::Empty;

/// A call of a client.
type Calling<P> = ClientCall<Plain, Plain, P>;

/// What a shim does for containerd.
pub trait Task: Drop {
    /// A call of `State`.
    type State: Future<Output = Result<StateResponse>>;

    /// A call of `Create`.
    type Create: Future<Output = Result<CreateTaskResponse>>;

    /// A call of `Start`.
    type Start: Future<Output = Result<StartResponse>>;

    /// A call of `Delete`.
    type Delete: Future<Output = Result<DeleteResponse>>;

    /// A call of `Pids`.
    type Pids: Future<Output = Result<PidsResponse>>;

    /// A call of `Pause`.
    type Pause: Future<Output = Result<Empty>>;

    /// A call of `Resume`.
    type Resume: Future<Output = Result<Empty>>;

    /// A call of `Checkpoint`.
    type Checkpoint: Future<Output = Result<Empty>>;

    /// A call of `Kill`.
    type Kill: Future<Output = Result<Empty>>;

    /// A call of `Exec`.
    type Exec: Future<Output = Result<Empty>>;

    /// A call of `ResizePty`.
    type ResizePty: Future<Output = Result<Empty>>;

    /// A call of `CloseIO`.
    type CloseIO: Future<Output = Result<Empty>>;

    /// A call of `Update`.
    type Update: Future<Output = Result<Empty>>;

    /// A call of `Wait`.
    type Wait: Future<Output = Result<WaitResponse>>;

    /// A call of `Stats`.
    type Stats: Future<Output = Result<StatsResponse>>;

    /// A call of `Connect`.
    type Connect: Future<Output = Result<ConnectResponse>>;

    /// A call of `Shutdown`.
    type Shutdown: Future<Output = Result<Empty>>;

    /// Answers `State`.
    fn state(&self, ctx: &TtrpcContext, request: StateRequest) -> Self::State
        ensures { Self.State.can_poll result };

    /// Answers `Create`.
    fn create(&self, ctx: &TtrpcContext, request: CreateTaskRequest) -> Self::Create
        ensures { Self.Create.can_poll result };

    /// Answers `Start`.
    fn start(&self, ctx: &TtrpcContext, request: StartRequest) -> Self::Start
        ensures { Self.Start.can_poll result };

    /// Answers `Delete`.
    fn delete(&self, ctx: &TtrpcContext, request: DeleteRequest) -> Self::Delete
        ensures { Self.Delete.can_poll result };

    /// Answers `Pids`.
    fn pids(&self, ctx: &TtrpcContext, request: PidsRequest) -> Self::Pids
        ensures { Self.Pids.can_poll result };

    /// Answers `Pause`.
    fn pause(&self, ctx: &TtrpcContext, request: PauseRequest) -> Self::Pause
        ensures { Self.Pause.can_poll result };

    /// Answers `Resume`.
    fn resume(&self, ctx: &TtrpcContext, request: ResumeRequest) -> Self::Resume
        ensures { Self.Resume.can_poll result };

    /// Answers `Checkpoint`.
    fn checkpoint(&self, ctx: &TtrpcContext, request: CheckpointTaskRequest) -> Self::Checkpoint
        ensures { Self.Checkpoint.can_poll result };

    /// Answers `Kill`.
    fn kill(&self, ctx: &TtrpcContext, request: KillRequest) -> Self::Kill
        ensures { Self.Kill.can_poll result };

    /// Answers `Exec`.
    fn exec(&self, ctx: &TtrpcContext, request: ExecProcessRequest) -> Self::Exec
        ensures { Self.Exec.can_poll result };

    /// Answers `ResizePty`.
    fn resize_pty(&self, ctx: &TtrpcContext, request: ResizePtyRequest) -> Self::ResizePty
        ensures { Self.ResizePty.can_poll result };

    /// Answers `CloseIO`.
    fn close_io(&self, ctx: &TtrpcContext, request: CloseIORequest) -> Self::CloseIO
        ensures { Self.CloseIO.can_poll result };

    /// Answers `Update`.
    fn update(&self, ctx: &TtrpcContext, request: UpdateTaskRequest) -> Self::Update
        ensures { Self.Update.can_poll result };

    /// Answers `Wait`.
    fn wait(&self, ctx: &TtrpcContext, request: WaitRequest) -> Self::Wait
        ensures { Self.Wait.can_poll result };

    /// Answers `Stats`.
    fn stats(&self, ctx: &TtrpcContext, request: StatsRequest) -> Self::Stats
        ensures { Self.Stats.can_poll result };

    /// Answers `Connect`.
    fn connect(&self, ctx: &TtrpcContext, request: ConnectRequest) -> Self::Connect
        ensures { Self.Connect.can_poll result };

    /// Answers `Shutdown`.
    fn shutdown(&self, ctx: &TtrpcContext, request: ShutdownRequest) -> Self::Shutdown
        ensures { Self.Shutdown.can_poll result };
}

/// Which method of `containerd.task.v2.Task` is called.
#[derive(Clone, Copy)]
enum TaskCall {
    State,
    Create,
    Start,
    Delete,
    Pids,
    Pause,
    Resume,
    Checkpoint,
    Kill,
    Exec,
    ResizePty,
    CloseIO,
    Update,
    Wait,
    Stats,
    Connect,
    Shutdown,
}

/// The handler of a method of `containerd.task.v2.Task`.
#[derive(Drop)]
pub struct TaskMethod<S: Drop> {
    service: Arc<S, Global>,
    call: TaskCall,
}

/// A request of `containerd.task.v2.Task` that is handled.
pub type TaskAnswer<S> = Either<
    Either<
        Either<
            Either<
                Either<
                    Handling<<S as Task>::State, Responds<StateResponse>>,
                    Handling<<S as Task>::Create, Responds<CreateTaskResponse>>,
                >,
                Handling<<S as Task>::Start, Responds<StartResponse>>,
            >,
            Either<
                Handling<<S as Task>::Delete, Responds<DeleteResponse>>,
                Handling<<S as Task>::Pids, Responds<PidsResponse>>,
            >,
        >,
        Either<
            Either<
                Handling<<S as Task>::Pause, Responds<Empty>>,
                Handling<<S as Task>::Resume, Responds<Empty>>,
            >,
            Either<
                Handling<<S as Task>::Checkpoint, Responds<Empty>>,
                Handling<<S as Task>::Kill, Responds<Empty>>,
            >,
        >,
    >,
    Either<
        Either<
            Either<
                Handling<<S as Task>::Exec, Responds<Empty>>,
                Handling<<S as Task>::ResizePty, Responds<Empty>>,
            >,
            Either<
                Handling<<S as Task>::CloseIO, Responds<Empty>>,
                Handling<<S as Task>::Update, Responds<Empty>>,
            >,
        >,
        Either<
            Either<
                Handling<<S as Task>::Wait, Responds<WaitResponse>>,
                Handling<<S as Task>::Stats, Responds<StatsResponse>>,
            >,
            Either<
                Handling<<S as Task>::Connect, Responds<ConnectResponse>>,
                Handling<<S as Task>::Shutdown, Responds<Empty>>,
            >,
        >,
    >,
>;

impl<S: Task> MethodHandler for TaskMethod<S> {
    type Call = TaskAnswer<S>;

    fn handler(&self, ctx: TtrpcContext, req: Request) -> TaskAnswer<S> {
        match self.call {
            TaskCall::State => {
                let call = async_request_handler!(self, ctx, req, StateRequest, state);
                Either::Left(Either::Left(Either::Left(Either::Left(Either::Left(call)))))
            }
            TaskCall::Create => {
                let call = async_request_handler!(self, ctx, req, CreateTaskRequest, create);
                Either::Left(Either::Left(Either::Left(Either::Left(Either::Right(call)))))
            }
            TaskCall::Start => {
                let call = async_request_handler!(self, ctx, req, StartRequest, start);
                Either::Left(Either::Left(Either::Left(Either::Right(call))))
            }
            TaskCall::Delete => {
                let call = async_request_handler!(self, ctx, req, DeleteRequest, delete);
                Either::Left(Either::Left(Either::Right(Either::Left(call))))
            }
            TaskCall::Pids => {
                let call = async_request_handler!(self, ctx, req, PidsRequest, pids);
                Either::Left(Either::Left(Either::Right(Either::Right(call))))
            }
            TaskCall::Pause => {
                let call = async_request_handler!(self, ctx, req, PauseRequest, pause);
                Either::Left(Either::Right(Either::Left(Either::Left(call))))
            }
            TaskCall::Resume => {
                let call = async_request_handler!(self, ctx, req, ResumeRequest, resume);
                Either::Left(Either::Right(Either::Left(Either::Right(call))))
            }
            TaskCall::Checkpoint => {
                let call = async_request_handler!(
                    self,
                    ctx,
                    req,
                    CheckpointTaskRequest,
                    checkpoint
                );
                Either::Left(Either::Right(Either::Right(Either::Left(call))))
            }
            TaskCall::Kill => {
                let call = async_request_handler!(self, ctx, req, KillRequest, kill);
                Either::Left(Either::Right(Either::Right(Either::Right(call))))
            }
            TaskCall::Exec => {
                let call = async_request_handler!(self, ctx, req, ExecProcessRequest, exec);
                Either::Right(Either::Left(Either::Left(Either::Left(call))))
            }
            TaskCall::ResizePty => {
                let call = async_request_handler!(self, ctx, req, ResizePtyRequest, resize_pty);
                Either::Right(Either::Left(Either::Left(Either::Right(call))))
            }
            TaskCall::CloseIO => {
                let call = async_request_handler!(self, ctx, req, CloseIORequest, close_io);
                Either::Right(Either::Left(Either::Right(Either::Left(call))))
            }
            TaskCall::Update => {
                let call = async_request_handler!(self, ctx, req, UpdateTaskRequest, update);
                Either::Right(Either::Left(Either::Right(Either::Right(call))))
            }
            TaskCall::Wait => {
                let call = async_request_handler!(self, ctx, req, WaitRequest, wait);
                Either::Right(Either::Right(Either::Left(Either::Left(call))))
            }
            TaskCall::Stats => {
                let call = async_request_handler!(self, ctx, req, StatsRequest, stats);
                Either::Right(Either::Right(Either::Left(Either::Right(call))))
            }
            TaskCall::Connect => {
                let call = async_request_handler!(self, ctx, req, ConnectRequest, connect);
                Either::Right(Either::Right(Either::Right(Either::Left(call))))
            }
            TaskCall::Shutdown => {
                let call = async_request_handler!(self, ctx, req, ShutdownRequest, shutdown);
                Either::Right(Either::Right(Either::Right(Either::Right(call))))
            }
        }
    }
}

/// The name of each method of `containerd.task.v2.Task`.
const TASK_METHODS: &[(&str, TaskCall)] = &[
    ("State", TaskCall::State),
    ("Create", TaskCall::Create),
    ("Start", TaskCall::Start),
    ("Delete", TaskCall::Delete),
    ("Pids", TaskCall::Pids),
    ("Pause", TaskCall::Pause),
    ("Resume", TaskCall::Resume),
    ("Checkpoint", TaskCall::Checkpoint),
    ("Kill", TaskCall::Kill),
    ("Exec", TaskCall::Exec),
    ("ResizePty", TaskCall::ResizePty),
    ("CloseIO", TaskCall::CloseIO),
    ("Update", TaskCall::Update),
    ("Wait", TaskCall::Wait),
    ("Stats", TaskCall::Stats),
    ("Connect", TaskCall::Connect),
    ("Shutdown", TaskCall::Shutdown),
];

/// The methods and streams of `containerd.task.v2.Task`, for `Server::register_service`.
pub fn task_service<S: Drop>(
    alloc: Global,
    service: S,
) -> Result<BTreeMap<String, Service<TaskMethod<S>, NoStreams>>> {
    let whole = Arc::new(alloc, service)?;
    let mut named = Service::new(alloc);
    for (name, call) in TASK_METHODS {
        let (service, call) = (Arc::try_clone(&whole)?, *call);
        let name = String::from_str(alloc, name)?;
        let method = TaskMethod { service, call };
        named.methods.insert(name, method)?;
    }
    let mut services = BTreeMap::new(alloc);
    services.insert(String::from_str(alloc, "containerd.task.v2.Task")?, named)?;
    Ok(services)
}

/// A client of `containerd.task.v2.Task`.
#[derive(Drop)]
pub struct TaskClient<R: Timed> {
    pub client: Client<R, Plain, Plain>,
}

impl<R: Timed> TaskClient<R> {
    /// Calls `State`.
    pub fn state(&self, ctx: Context, request: &StateRequest) -> Calling<StateResponse> {
        let reply = StateResponse::new(self.client.alloc());
        async_client_request!(
            self,
            ctx,
            request,
            "containerd.task.v2.Task",
            "State",
            reply
        )
    }

    /// Calls `Create`.
    pub fn create(&self, ctx: Context, request: &CreateTaskRequest) -> Calling<CreateTaskResponse> {
        let reply = CreateTaskResponse::new(self.client.alloc());
        async_client_request!(
            self,
            ctx,
            request,
            "containerd.task.v2.Task",
            "Create",
            reply
        )
    }

    /// Calls `Start`.
    pub fn start(&self, ctx: Context, request: &StartRequest) -> Calling<StartResponse> {
        let reply = StartResponse::new(self.client.alloc());
        async_client_request!(
            self,
            ctx,
            request,
            "containerd.task.v2.Task",
            "Start",
            reply
        )
    }

    /// Calls `Delete`.
    pub fn delete(&self, ctx: Context, request: &DeleteRequest) -> Calling<DeleteResponse> {
        let reply = DeleteResponse::new(self.client.alloc());
        async_client_request!(
            self,
            ctx,
            request,
            "containerd.task.v2.Task",
            "Delete",
            reply
        )
    }

    /// Calls `Pids`.
    pub fn pids(&self, ctx: Context, request: &PidsRequest) -> Calling<PidsResponse> {
        let reply = PidsResponse::new(self.client.alloc());
        async_client_request!(self, ctx, request, "containerd.task.v2.Task", "Pids", reply)
    }

    /// Calls `Pause`.
    pub fn pause(&self, ctx: Context, request: &PauseRequest) -> Calling<Empty> {
        let reply = Empty::new(self.client.alloc());
        async_client_request!(
            self,
            ctx,
            request,
            "containerd.task.v2.Task",
            "Pause",
            reply
        )
    }

    /// Calls `Resume`.
    pub fn resume(&self, ctx: Context, request: &ResumeRequest) -> Calling<Empty> {
        let reply = Empty::new(self.client.alloc());
        async_client_request!(
            self,
            ctx,
            request,
            "containerd.task.v2.Task",
            "Resume",
            reply
        )
    }

    /// Calls `Checkpoint`.
    pub fn checkpoint(&self, ctx: Context, request: &CheckpointTaskRequest) -> Calling<Empty> {
        let reply = Empty::new(self.client.alloc());
        async_client_request!(
            self,
            ctx,
            request,
            "containerd.task.v2.Task",
            "Checkpoint",
            reply
        )
    }

    /// Calls `Kill`.
    pub fn kill(&self, ctx: Context, request: &KillRequest) -> Calling<Empty> {
        let reply = Empty::new(self.client.alloc());
        async_client_request!(self, ctx, request, "containerd.task.v2.Task", "Kill", reply)
    }

    /// Calls `Exec`.
    pub fn exec(&self, ctx: Context, request: &ExecProcessRequest) -> Calling<Empty> {
        let reply = Empty::new(self.client.alloc());
        async_client_request!(self, ctx, request, "containerd.task.v2.Task", "Exec", reply)
    }

    /// Calls `ResizePty`.
    pub fn resize_pty(&self, ctx: Context, request: &ResizePtyRequest) -> Calling<Empty> {
        let reply = Empty::new(self.client.alloc());
        async_client_request!(
            self,
            ctx,
            request,
            "containerd.task.v2.Task",
            "ResizePty",
            reply
        )
    }

    /// Calls `CloseIO`.
    pub fn close_io(&self, ctx: Context, request: &CloseIORequest) -> Calling<Empty> {
        let reply = Empty::new(self.client.alloc());
        async_client_request!(
            self,
            ctx,
            request,
            "containerd.task.v2.Task",
            "CloseIO",
            reply
        )
    }

    /// Calls `Update`.
    pub fn update(&self, ctx: Context, request: &UpdateTaskRequest) -> Calling<Empty> {
        let reply = Empty::new(self.client.alloc());
        async_client_request!(
            self,
            ctx,
            request,
            "containerd.task.v2.Task",
            "Update",
            reply
        )
    }

    /// Calls `Wait`.
    pub fn wait(&self, ctx: Context, request: &WaitRequest) -> Calling<WaitResponse> {
        let reply = WaitResponse::new(self.client.alloc());
        async_client_request!(self, ctx, request, "containerd.task.v2.Task", "Wait", reply)
    }

    /// Calls `Stats`.
    pub fn stats(&self, ctx: Context, request: &StatsRequest) -> Calling<StatsResponse> {
        let reply = StatsResponse::new(self.client.alloc());
        async_client_request!(
            self,
            ctx,
            request,
            "containerd.task.v2.Task",
            "Stats",
            reply
        )
    }

    /// Calls `Connect`.
    pub fn connect(&self, ctx: Context, request: &ConnectRequest) -> Calling<ConnectResponse> {
        let reply = ConnectResponse::new(self.client.alloc());
        async_client_request!(
            self,
            ctx,
            request,
            "containerd.task.v2.Task",
            "Connect",
            reply
        )
    }

    /// Calls `Shutdown`.
    pub fn shutdown(&self, ctx: Context, request: &ShutdownRequest) -> Calling<Empty> {
        let reply = Empty::new(self.client.alloc());
        async_client_request!(
            self,
            ctx,
            request,
            "containerd.task.v2.Task",
            "Shutdown",
            reply
        )
    }

    /// Another client of the same connection.
    pub fn try_clone(&self) -> Result<TaskClient<R>> {
        let client = self.client.try_clone()?;
        Ok(TaskClient { client })
    }
}
