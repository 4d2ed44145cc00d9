//! The things that came in for one receiver. A call without an `alloc` argument takes no memory, except `put`.
ghost use Rattle.std.specs.Prelude.{◌≡◌, [], IfOk, OnOk, OnErr};
ghost use Rattle.ttrpc_connection.specs.Failure.{IsTold};
ghost use Rattle.ttrpc_connection.specs.Mail.{Receives, empty_mail, opened_with, past_error, with_thing, without_receiver};

use crate::failure::Failure;
use crate::thing::MailboxEntry;
use std::alloc::{AllocError, Global};
use std::collections::VecDeque;
use std::marker::Model;
use ttrpc_proto::Error;
use ttrpc_wire::{Blob, Text};

/// The state of a receiver, which decides its next results.
#[derive(Clone, Copy, Debug, PartialEq, Eq)]
pub enum Receiver {
    /// The receiver gets the things that came in.
    Open,
    /// The receiver gets the error that the other side has closed.
    Closed,
    /// The receiver gets the error that nothing is received any more.
    Broken,
    /// The receiver was dropped. A later call gets the same error as at `Broken`.
    Dropped,
}

/// The things that came in for one receiver and weren't received yet. Nothing is kept for a receiver that isn't open.
#[derive(Debug, Drop)]
pub struct Mailbox {
    things: VecDeque<MailboxEntry>,
    receiver: Receiver,
    ended: bool,
}

impl Model for Mailbox {
    ghost use Rattle.ttrpc_connection.specs.Mail.{Mail};

    ghost Value = { Mail };

    ghost view = { λ a.
        record { things = a.things.items; receiver = a.receiver; ended = a.ended } };
}

impl Mailbox {
    /// Returns an open mailbox with nothing in it. Takes no memory.
    pub fn new(alloc: Global) -> Self
        ensures { result ≡ empty_mail }
    {
        Mailbox {
            things: VecDeque::new(alloc),
            receiver: Receiver::Open,
            ended: false,
        }
    }

    /// Returns the mailbox of a stream that begins with this thing, if there is one. If `ends` is true the thing is the last.
    pub fn with_first(
        alloc: Global,
        thing: Option<MailboxEntry>,
        ends: bool,
    ) -> Result<Self, AllocError>
        ensures { IfOk result (λ mailbox. mailbox ≡ opened_with thing ends) }
    {
        let mut mailbox = Mailbox::new(alloc);
        if let Some(thing) = thing {
            mailbox.put(thing, ends)?;
        }
        Ok(mailbox)
    }

    /// Returns whether the last thing was put in.
    pub fn is_ended(&self) -> bool
        ensures { result ≡ self.now.ended }
    {
        self.ended
    }

    /// Returns the state of the receiver.
    pub fn receiver(&self) -> Receiver
        ensures { result ≡ self.now.receiver }
    {
        self.receiver
    }

    /// Puts a thing in after the others. If `ends` is true it is the last. An `Err` changes nothing.
    pub fn put(&mut self, thing: MailboxEntry, ends: bool) -> Result<(), AllocError>
        ensures ok { OnOk result (self.new ≡ with_thing self.old thing ends) }
        ensures err { OnErr result (self.new ≡ self.old) }
    {
        if self.receiver == Receiver::Open {
            self.things.push_back(thing)?;
        }
        self.ended = self.ended || ends;
        Ok(())
    }

    /// Takes the next item, or returns the error why there is none, or `None` if nothing came yet. If the connection has failed and the
    /// mailbox hasn't ended, the failure comes after all things. If memory for a text was refused the call returns `NoMemory`, and changes
    /// nothing.
    pub fn recv(&mut self, alloc: Global, failure: &Option<Failure>) -> Option<Result<Blob, Error>>
        ensures { Receives failure.now self.old result self.new }
    {
        match self.receiver {
            Receiver::Open => {}
            Receiver::Closed => return Some(Err(Error::RemoteClosed)),
            Receiver::Broken | Receiver::Dropped => return Some(Err(past_error(alloc))),
        }
        match self.things.pop_front() {
            None => self.recv_failure(alloc, failure),
            Some(MailboxEntry::Item(item)) => Some(Ok(item)),
            Some(MailboxEntry::Last(item)) => {
                self.stop(Receiver::Closed);
                Some(Ok(item))
            }
            Some(MailboxEntry::End) => {
                self.stop(Receiver::Closed);
                Some(Err(Error::Eof))
            }
            Some(MailboxEntry::Closing(error)) => {
                self.stop(Receiver::Closed);
                Some(Err(error))
            }
            Some(MailboxEntry::Breaking(error)) => {
                self.stop(Receiver::Broken);
                Some(Err(error))
            }
        }
    }

    /// Takes the failure, which comes after all things, if there is one and the mailbox hasn't ended.
    fn recv_failure(
        &mut self,
        alloc: Global,
        failure: &Option<Failure>,
    ) -> Option<Result<Blob, Error>>
        requires open { self.old.receiver ≡ Receiver.Open }
        requires empty { self.old.things ≡ [] }
        ensures { Receives failure.now self.old result self.new }
    {
        if self.ended {
            return None;
        }
        match failure {
            None => None,
            Some(failure) => match failure.made(alloc) {
                Ok(error) => {
                    self.receiver = Receiver::Broken;
                    self.ended = true;
                    Some(Err(error))
                }
                Err(refused) => Some(Err(refused.into())),
            },
        }
    }

    /// Drops the receiver, so that nothing is kept any more.
    pub fn drop_receiver(&mut self)
        ensures { self.new ≡ without_receiver self.old }
    {
        self.stop(Receiver::Dropped);
    }

    /// Clears the mailbox, and sets the state of its receiver.
    fn stop(&mut self, receiver: Receiver)
        ensures { self.new ≡ record { things = []; receiver = receiver; ended = self.old.ended } }
    {
        self.things.clear();
        self.receiver = receiver;
    }
}

/// Returns the error for a receiver that is broken or dropped, or `NoMemory` if memory for its text was refused.
pub fn past_error(alloc: Global) -> Error
    ensures { IsTold past_error result }
{
    match Text::from_str(alloc, "Receive packet from Receiver error") {
        Ok(text) => Error::Others(text),
        Err(refused) => refused.into(),
    }
}
