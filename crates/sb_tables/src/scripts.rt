// Table tests of scripts: which are sound, and which channels they leave clean.

use crate::inputs::inputs_of;
use sb_call::ShortName;
use sb_rows::{RowFault, small};
use sb_statements::{
    Script, SoundScript, StartLines, TargetScript, Targets, Threads, clean, sound,
};
use std::alloc::Global;

/// What a function of scripts gives.
pub fn value_of(alloc: Global, name: &str, parts: &[&str]) -> Result<String, RowFault> {
    let [first, second, third] = parts else {
        return Err(RowFault::Unknown);
    };
    match name {
        "sound" => is_sound(alloc, script_of(alloc, first, second, third)?),
        "SoundScript::new" => told_sound(alloc, script_of(alloc, first, second, third)?),
        "clean" => is_clean(alloc, first, small(second)?, small(third)?),
        _ => Err(RowFault::Unknown),
    }
}

// The script with this patience and a target of each of these names, with this many channels and without threads.
fn script_of(
    alloc: Global,
    patience: &str,
    names: &str,
    channels: &str,
) -> Result<Script, RowFault> {
    let channels = small(channels)?;
    let mut targets = Targets::new(Vec::new(alloc));
    for name in names.split_whitespace() {
        targets.push(target_of(alloc, name, channels)?)?;
    }
    Ok(Script {
        patience: small(patience)?,
        start: StartLines::new(Vec::new(alloc)),
        targets,
    })
}

fn target_of(alloc: Global, name: &str, channels: u32) -> Result<TargetScript, RowFault> {
    let Some(name) = ShortName::new(name.as_bytes()) else {
        return Err(RowFault::BadWords);
    };
    Ok(TargetScript {
        name,
        policy: 0,
        channels,
        threads: Threads::new(Vec::new(alloc)),
    })
}

fn is_sound(alloc: Global, script: Script) -> Result<String, RowFault> {
    let found = sound(&script);
    Ok(format!(in alloc; "{found}")?)
}

// How many targets a sound script has, or that the script is given back.
fn told_sound(alloc: Global, script: Script) -> Result<String, RowFault> {
    match SoundScript::new(script) {
        Ok(script) => Ok(format!(in alloc; "sound, targets {}", script.targets.len())?),
        Err(script) => Ok(format!(in alloc; "given back, targets {}", script.targets.len())?),
    }
}

// Whether a channel of a target is clean.
fn is_clean(alloc: Global, script: &str, target: u32, channel: u32) -> Result<String, RowFault> {
    let inputs = inputs_of(alloc, script)?;
    let found = clean(inputs.script(), target, channel);
    Ok(format!(in alloc; "{found}")?)
}
