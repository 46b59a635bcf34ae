// A gate that each call passes between its decision and its turn.

use std::sync::Wait;

/// Passed once for each call, after its decision and before its turn. It has no meaning, and it may wait.
pub trait Gate: Sync {
    /// Passes the gate with the call of this mark, of the target of this number.
    fn pass<R: Wait>(&self, rt: &R, target: u32, mark: u64);
}

/// A gate that lets each call pass at once.
#[derive(Clone, Copy)]
pub struct OpenGate;

impl Gate for OpenGate {
    fn pass<R: Wait>(&self, _rt: &R, _target: u32, _mark: u64) {}
}
