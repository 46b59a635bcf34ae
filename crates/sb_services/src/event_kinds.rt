// What an event is made with.

/// What becomes of a signaled event once a thread that waited for it goes on (`EVENT_TYPE`).
#[derive(Clone, Copy, Debug, PartialEq, Eq)]
pub enum EventKind {
    /// It stays signaled (`NotificationEvent`).
    Notification = 0,
    /// It is reset (`SynchronizationEvent`).
    Synchronization = 1,
}

/// The kind of a number: 0 is a notification event, and any other number a synchronization event.
impl From<u64> for EventKind {
    ghost use Rattle.std.specs.Prelude.{◌≡◌};
    ghost use Rattle.sb_services.specs.EventKinds.{kind_from};

    ghost from_gives = { λ number kind. kind ≡ kind_from number };

    fn from(number: u64) -> EventKind {
        match number {
            0 => EventKind::Notification,
            _ => EventKind::Synchronization,
        }
    }
}
