// The library for brokers in C, C++ and Rust, as functions that C calls: policies and their verdicts, the worker of a target, blocks,
// the caller's side of a call, and the texts of literals.
// It is thin over sb_host. No function touches shared memory, waits, or keeps anything outside what C holds.
//
// Every function may be called at any time with any numbers: what does not fit is a status that changes nothing. What C has to keep is in
// `include/sandbox_broker.h`: pointers and lengths are right, and do not overlap.
#![tactic(auto)]

mod arguments;
mod blocks;
mod calls;
mod decisions;
mod frees;
mod handles;
mod helds;
mod laws;
mod literals;
mod parcels;
mod policies;
mod rooms;
mod shapes;
mod spaces;
mod statuses;
mod steps;
mod verdicts;
mod versions;
mod workers;
