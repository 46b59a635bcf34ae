// The parameter block: how a call and its reply are laid out in the words of a channel. A worker copies
// the words of a block one by one, while their writer may change them, and decides on the copy
// alone. No word is trusted: each copy has either a fault or one call, whatever its words are.
//
// The laws, in `laws`:
// - `copies_are_whole`: the count and the end are fetched twice and have to agree. Those that were
//   fetched before a copy without a fault are those in it, so that the copied words alone decide.
// - `parameters_lie_inside`: each parameter of a copy without a fault lies after the end item and
//   within the copy, with the type and the size of its argument; `nothing_else_is_refused` is the
//   converse.
// - `faultless_copies_fit`, `blocks_come_back`, `unread_parts_do_not_matter`.
//
// The layout follows Chromium's `sandbox/win`: a count, a descriptor for each parameter, an
// end item and then the parameters, as in `crosscall_params`, of which `sharedmem_ipc_server` and
// `crosscall_server` take a copy, compare its head with what was read first and then check each
// parameter in the copy. The numbers of words, types and tags are this crate's own.
#![tactic(auto)]

mod calls;
mod copies;
mod encoding;
mod faults;
mod laws;
mod layout;
mod packing;
mod replies;
mod words;

pub use calls::{BlockRefused, Call, decode};
pub use copies::BlockCopy;
pub use encoding::{TooBig, encode, encodes, has_small_block, put_block};
pub use faults::{BlockFault, fault_of};
pub use laws::{
    blocks_come_back, copies_are_whole, faultless_copies_fit, nothing_else_is_refused,
    parameters_lie_inside, unread_parts_do_not_matter,
};
pub use layout::{
    COUNT_WORD, FIRST_DESCRIPTOR, FIRST_REPLY_WORD, MAX_PARAMETERS, MAX_WORDS, REPLY_LENGTH, is_end,
};
pub use packing::offset_of;
pub use replies::{read_reply, replies_come_back, reply_words};
pub use words::Words;
