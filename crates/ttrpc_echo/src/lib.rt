//! The service `demo.Echo` of the program `ttrpc-demo`, and the engine that answers the frames of an input, over any
//! reader and writer. The module `program` has the commands of the program.
#![tactic(auto)]

mod engine;
pub mod program;

pub use engine::{answer, broken, echo, flush};
pub use program::{
    DemoSystem, EchoHandler, EchoServer, FaultKeeper, Faults, ProgramOutcome, call_at, call_own,
    run, start_server, tell, tell_address,
};
