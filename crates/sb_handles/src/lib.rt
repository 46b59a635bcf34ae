// Handles: which target holds which handle on what object, and which accesses to one object may be open at the same time.
// Accesses and sharing are those of CreateFile and NtCreateFile (the tables of share modes in their documentation).
#![tactic(auto)]

mod counts;
mod laws;
mod masks;
mod objects;
mod shares;
mod tables;

pub use laws::{
    agreement_is_kept, closed_are_gone, conflicts_are_held, conflicts_are_lowest, grants_are_held,
    handles_are_on_one_object, numbers_are_granted_once, numbers_are_new, opens_come_back,
    pipe_handles_are_counted,
};
pub use masks::{Access, Sharing};
pub use objects::{Held, NotHeld, Object, OpenHandle, Service, Share};
pub use shares::ShareTable;
pub use tables::HandleTable;
