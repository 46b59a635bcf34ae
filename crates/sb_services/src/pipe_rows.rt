// A pipe, apart from its name.

use crate::pipe_modes::{PipeForm, PipeMode};

/// A pipe.
#[derive(Clone, Copy)]
pub struct PipeRow {
    /// Its number among all pipes ever made, from 1.
    pub number: u64,
    /// In which direction data go through it.
    pub mode: PipeMode,
    /// Whether data are bytes or messages.
    pub form: PipeForm,
    /// How many handles it may have, 1 to 255.
    pub instances: u64,
    /// How many handles it has, 1 to `instances`.
    pub handles: u64,
}
