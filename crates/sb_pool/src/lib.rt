// A pool of numbered works, dealt to threads by a bounded queue for many producers and consumers (crossbeam's ArrayQueue, after
// D. Vyukov's). Each number is in the queue or out with one seat, never both and never twice, and a work has the same home
// whenever it is drawn. A home is plain data that proofs compare, and is what a work is tied to. A count beside the queue, a
// semaphore, says how many works are in: a draw that gives none found 0 there.
#![tactic(auto)]

mod events;
mod laws;
mod pool;
mod protocol;
mod rooms;
mod seats;
mod semaphore;

pub use events::{PoolEvent, SeatHistory};
pub use laws::{establish_looks_are_true, establish_out_once};
pub use pool::{Pool, PoolRefused};
pub use protocol::{Numbered, PoolView};
pub use seats::PoolSeat;
