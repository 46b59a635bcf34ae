// What a broker needs whose own code is not proved: policies with their programs, in one value; the worker of a target, whose host makes
// each step on memory of its own, performs what is granted and tells what it found; the reply that such a host gives; the caller's side
// of a call, in plain memory; and the texts of literals, from which a host builds policies.
// Nothing here touches a shared word, performs a call for the host, or waits.
#![tactic(auto)]

mod blocks;
mod calls;
mod host_workers;
mod laws;
mod literals;
mod policy_sets;
mod replies;

pub use blocks::{NoBlock, block_of, copy_of};
pub use calls::ClientCall;
pub use host_workers::{HostWorker, Undecided};
pub use laws::{
    adopting_gives_calls_up, calls_go_as_callers, calls_have_their_replies, calls_step_as_threads,
    hosts_are_true_to_what_they_told, hosts_go_as_workers, hosts_make_histories,
    performing_is_answering,
};
pub use literals::{LiteralRefused, pattern_literal, string_literal};
pub use policy_sets::PolicySet;
pub use replies::host_reply;
