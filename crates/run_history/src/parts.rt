ghost use Rattle.std.specs.Prelude.{◌≡◌};
ghost use Rattle.run_history.specs.Happenings.{is_request};
ghost use Rattle.run_history.specs.Parts.{ran_part, server_of, waited_part};

use crate::happenings::{Happening, Segment, Wait};
use std::alloc::{AllocError, Global};

/// A part of the time of a request, after the `accept` that took it.
#[derive(Clone, Copy)]
pub enum Part {
    /// A segment of the thread that serves it.
    Runs { began: u64, ended: u64 },
    /// A wait of that thread.
    Waits { site: u32, since: u64, until: u64 },
}

/// The parts of the time of one request, in order.
#[derive(Drop)]
pub struct Parts {
    /// The number of the request, from 0, in the order in which requests are taken.
    request: u64,
    /// The thread that serves it: the one that took it, until it takes another.
    pub server: Option<u32>,
    /// The parts so far.
    pub parts: Vec<Part>,
}

impl Parts {
    ghost use Rattle.std.specs.Prelude.{◌≡◌, ◌++◌, None, [], OnOk};
    ghost use Rattle.run_history.specs.Parts.{kept, part_in, server_after, server_of, waited_part};

    /// Returns the state before the first entry: no thread serves the request. It doesn't allocate.
    pub fn new(alloc: Global, request: u64) -> Parts
        ensures request { result.request ≡ request }
        ensures server { result.server ≡ None }
        ensures parts { result.parts.items ≡ [] }
    {
        Parts {
            request,
            server: None,
            parts: Vec::new(alloc),
        }
    }

    /// Adds the happening of the next entry. After an error the contents are unspecified.
    pub fn add(&mut self, told: Happening) -> Result<(), AllocError>
        ensures request { self.new.request ≡ self.old.request }
        ensures server { OnOk result (self.new.server ≡ server_after self.old.request told self.old.server) }
        ensures parts { OnOk result (self.new.parts.items ≡ self.old.parts.items ++ kept (part_in self.old.request told self.old.server)) }
    {
        match told {
            Happening::Came { .. } => self.keep(None),
            Happening::Lost { .. } => self.keep(None),
            Happening::Started { .. } => self.keep(None),
            Happening::Waited(wait) => self.wait(wait),
            Happening::Put { .. } => self.keep(None),
            Happening::Ran { segment, .. } => self.keep(ran_part(self.request, segment)),
            Happening::Nothing => self.keep(None),
        }
    }

    /// Adds a finished wait.
    fn wait(&mut self, wait: Wait) -> Result<(), AllocError>
        ensures request { self.new.request ≡ self.old.request }
        ensures server { OnOk result (self.new.server ≡ server_of self.old.request wait self.old.server) }
        ensures parts { OnOk result (self.new.parts.items ≡ self.old.parts.items ++ kept (waited_part wait self.old.server)) }
    {
        let part = waited_part(wait, self.server);
        self.server = server_of(self.request, wait, self.server);
        self.keep(part)
    }

    /// Adds a part, if there is one.
    fn keep(&mut self, part: Option<Part>) -> Result<(), AllocError>
        ensures request { self.new.request ≡ self.old.request }
        ensures server { self.new.server ≡ self.old.server }
        ensures parts { OnOk result (self.new.parts.items ≡ self.old.parts.items ++ kept part) }
    {
        match part {
            None => Ok(()),
            Some(one) => match self.parts.push(one) {
                Ok(()) => Ok(()),
                Err(_) => Err(AllocError),
            },
        }
    }
}

/// Returns the thread that serves a request, after a wait is over.
fn server_of(request: u64, wait: Wait, server: Option<u32>) -> Option<u32>
    ensures { result ≡ server_of request wait server }
{
    match wait.request {
        None => server,
        Some(taken) => {
            if taken == request {
                Some(wait.thread)
            } else if is_thread(wait.thread, server) {
                None
            } else {
                server
            }
        }
    }
}

/// Returns the part of a request for a wait, if that thread serves it.
fn waited_part(wait: Wait, server: Option<u32>) -> Option<Part>
    ensures { result ≡ waited_part wait server }
{
    match wait.request {
        Some(_) => None,
        None => {
            if is_thread(wait.thread, server) {
                Some(Part::Waits {
                    site: wait.site,
                    since: wait.since,
                    until: wait.until,
                })
            } else {
                None
            }
        }
    }
}

/// Returns the part of a request for a segment, if the segment serves it.
fn ran_part(request: u64, segment: Segment) -> Option<Part>
    ensures { result ≡ ran_part request segment }
{
    match segment.request {
        None => None,
        Some(served) => {
            if served == request {
                Some(Part::Runs {
                    began: segment.began,
                    ended: segment.ended,
                })
            } else {
                None
            }
        }
    }
}

/// Checks whether this thread serves a request.
fn is_thread(thread: u32, server: Option<u32>) -> bool
    ensures { result ≡ is_request thread server }
{
    match server {
        None => false,
        Some(number) => number == thread,
    }
}
