//! Halves that a thread can send to another.
use crate::transform::{InboundTransform, OutboundTransform};

/// An outbound half that can be sent to another thread, and stay there.
pub trait SendOutbound: OutboundTransform + Send + Drop + 'static {}

impl<O: OutboundTransform + Send + Drop + 'static> SendOutbound for O {}

/// An inbound half that can be sent to another thread, and stay there.
pub trait SendInbound: InboundTransform + Send + Drop + 'static {}

impl<I: InboundTransform + Send + Drop + 'static> SendInbound for I {}
