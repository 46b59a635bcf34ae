// What a handle is open on, with which access and sharing.
ghost use Rattle.std.specs.Prelude.{◌≡◌};

use crate::masks::{Access, Sharing};
use thiserror::Error;

/// The service to which an object belongs.
#[derive(Clone, Copy)]
pub enum Service {
    /// Files and directories.
    File,
    /// Pipes.
    Pipe,
    /// Keys of the registry.
    Key,
    /// Events.
    Event,
}

/// An object of a service.
#[derive(Clone, Copy)]
pub struct Object {
    /// The service that made it.
    pub service: Service,
    /// Its number among all objects that the service ever made, from 1.
    pub number: u64,
}

/// What a handle is open on.
#[derive(Clone, Copy)]
pub struct Held {
    /// The object.
    pub object: Object,
    /// The access with which it was opened; 0 if the call has none.
    pub access: Access,
    /// What others may do to the object while it is open; 0 if the call has none.
    pub sharing: Sharing,
}

impl Held {
    /// The object of a service and a number, with this access and sharing.
    pub fn new(service: Service, number: u64, access: Access, sharing: Sharing) -> Held
        ensures { result ≡ record { object = record { service = service; number = number }; access = access; sharing = sharing } }
    {
        Held {
            object: Object { service, number },
            access,
            sharing,
        }
    }
}

/// A handle that a target holds.
#[derive(Clone, Copy)]
pub struct OpenHandle {
    /// The number of the target, from 0.
    pub target: u32,
    /// The number of the handle among all ever granted, from 1.
    pub number: u64,
    /// What it is open on.
    pub held: Held,
}

/// The access of an open handle, and what it shares with others of its object.
#[derive(Clone, Copy)]
pub struct Share {
    /// The access of the handle.
    pub access: Access,
    /// What others may do to the object while it is open.
    pub sharing: Sharing,
}

/// The target holds no handle of that number.
#[derive(Clone, Copy, Debug, Error)]
#[error("handle not held")]
pub struct NotHeld;
