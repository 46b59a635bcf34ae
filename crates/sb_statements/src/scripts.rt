// A script: how it opens, and what its targets do.
ghost use Rattle.std.specs.Prelude.{◌≡◌};
ghost use Rattle.std.specs.List.{list_any};
ghost use Rattle.sb_statements.specs.Scripts.{writes_channel, target_name, threads_write, is_clean};

use crate::statements::{Statement, Statements, Threads};
use sb_base::{Items, Wide};
use sb_call::ShortName;
use std::alloc::AllocError;

/// An object that is there at the start.
#[derive(PartialEq)]
pub enum StartLine {
    /// A directory.
    Dir { name: Wide },
    /// A file with its attributes.
    File { name: Wide, attributes: u64 },
    /// A registry key.
    Key { name: Wide },
    /// An event with its kind and its initial state.
    Event { name: Wide, kind: u64, initial: u64 },
}

impl Drop for StartLine {
    fn drop(self) {
        match self {
            StartLine::Dir { name: _ } => {}
            StartLine::File {
                name: _,
                attributes: _,
            } => {}
            StartLine::Key { name: _ } => {}
            StartLine::Event {
                name: _,
                kind: _,
                initial: _,
            } => {}
        }
    }
}

impl Clone for StartLine {
    ghost is_clone = { λ line clone. clone ≡ line };

    fn clone(&self) -> Result<StartLine, AllocError> {
        Ok(match self {
            StartLine::Dir { name } => StartLine::Dir {
                name: name.clone()?,
            },
            StartLine::File { name, attributes } => StartLine::File {
                name: name.clone()?,
                attributes: *attributes,
            },
            StartLine::Key { name } => StartLine::Key {
                name: name.clone()?,
            },
            StartLine::Event {
                name,
                kind,
                initial,
            } => StartLine::Event {
                name: name.clone()?,
                kind: *kind,
                initial: *initial,
            },
        })
    }
}

/// The objects that are there at the start, in the order in which they are placed.
pub type StartLines = Items<StartLine>;

/// A target: its policy by number, how many channels it has, and its threads.
#[derive(PartialEq)]
pub struct TargetScript {
    /// The name, as transcripts show it.
    pub name: ShortName,
    /// The number of the policy that judges its calls, from 0.
    pub policy: u32,
    /// How many channels it has, from 1 to 8 in a script that was read.
    pub channels: u32,
    /// Its threads.
    pub threads: Threads,
}

impl Drop for TargetScript {
    fn drop(self) {
        let TargetScript {
            name: _,
            policy: _,
            channels: _,
            threads: _,
        } = self;
    }
}

/// The targets of a script, numbered from 0.
pub type Targets = Items<TargetScript>;

/// A script.
#[derive(PartialEq)]
pub struct Script {
    /// How many loads of its channel's state a call makes at most if the channel is not clean, and how many rounds
    /// over the channels if the target has no clean one. From 1 to 1,000,000 in a script that was read.
    pub patience: u32,
    /// What is there at the start.
    pub start: StartLines,
    /// Its targets.
    pub targets: Targets,
}

// What a script holds is dropped by one call, which is proved here once and not in each crate that drops a script.
impl Drop for Script {
    fn drop(self) {
        let Script {
            patience: _,
            start: _,
            targets: _,
        } = self;
    }
}

impl Script {
    /// The name of a target, numbered from 0. One that is not there has none.
    pub fn target_name(&self, target: usize) -> &[u8]
        ensures { result.now ≡ target_name self.now target }
    {
        match self.targets.as_slice().get(target) {
            Some(target) => target.name.bytes(),
            None => &[],
        }
    }
}

fn statements_write(target: u32, channel: u32, statements: &[Statement]) -> bool
    ensures { result ≡ list_any (writes_channel target channel) statements.now }
{
    statements
        .iter()
        .any(|statement| statement.writes_channel(target, channel))
}

fn threads_write(target: u32, channel: u32, threads: &[Statements]) -> bool
    ensures { result ≡ threads_write target channel threads.now }
{
    threads
        .iter()
        .any(|statements| statements_write(target, channel, statements))
}

fn targets_write(target: u32, channel: u32, targets: &[TargetScript]) -> bool
    ensures { result ≡ list_any (λ t. threads_write target channel t.threads) targets.now }
{
    targets
        .iter()
        .any(|other| threads_write(target, channel, &other.threads))
}

/// Whether a channel of a target is clean: no store and no exchange statement of any thread of any target names a word
/// of it. Loads and waits leave it clean. A channel that is not there is clean.
pub fn clean(script: &Script, target: u32, channel: u32) -> bool
    ensures { result ≡ is_clean script.now target channel }
{
    !targets_write(target, channel, &script.targets)
}
