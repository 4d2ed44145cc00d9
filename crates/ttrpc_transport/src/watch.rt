//! The watch, which receives a server's faults that its callers can't see.
use ttrpc_proto::Error;

/// A receiver of a server's faults that its callers can't see. Each method does nothing unless it is written. A method is called in the
/// thread or the task that met the fault, which holds no lock then. The thread or task goes on after the method has returned.
pub trait Watch {
    /// Receives the error (`Nix`) by which the system gave no connection. The server tries again.
    fn accept_failed(&self, error: &Error) {
        let _ = error;
    }

    /// Receives the refusal of a connection by the hook: `accept hook failed: ` and the text that the hook's error prints (`Others`). The
    /// connection is closed.
    fn hook_refused(&self, error: &Error) {
        let _ = error;
    }

    /// Receives the error by which a connection couldn't be served: there was no memory, no thread, or no timer for it. The connection
    /// is closed.
    fn connection_dropped(&self, error: &Error) {
        let _ = error;
    }

    /// Receives the error by which one more worker couldn't be started: there was no memory or no thread for it. Its connection goes
    /// on with the workers that it has. A polled server has no workers, and never calls this.
    fn worker_missing(&self, error: &Error) {
        let _ = error;
    }

    /// Receives the error by which a handler failed, and its connection, too, if it hadn't. In a polled server a handler's error is its
    /// answer, so that server never calls this.
    fn handler_failed(&self, error: &Error) {
        let _ = error;
    }
}

/// A watch that does nothing.
#[derive(Clone, Copy, Debug)]
pub struct NoWatch {}

impl Watch for NoWatch {}
