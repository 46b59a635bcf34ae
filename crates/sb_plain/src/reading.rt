// What is read of the text of a file: policies, a script for targets of these, and a schedule of its actors. None of this sees a file.
ghost use Rattle.std.specs.Prelude.{◌≡◌, true, IfErr, IfOk};
ghost use Rattle.std.specs.List.{list_all};
ghost use Rattle.sb_statements.specs.Actors.{is_step_there};
ghost use Rattle.sb_plain.specs.Contents.{no_schedule, policies_of, schedule_in, script_of};
ghost use Rattle.sb_plain.specs.Readings.{Gives, IsOfText};

use crate::driver::{LaterFile, MAX_BYTES};
use crate::file_texts::FileText;
use crate::refusals::Refused;
use sb_book::OpenedScript;
use sb_message::Shown;
use sb_rule::WellMadePolicies;
use sb_ruletext::{read_noted_policies, read_policies};
use sb_scripttext::{MAX_ROUNDS, read_schedule, read_script};
use sb_statements::{Schedule, Script, SoundScript, Steps};
use std::alloc::Global;

/// The policies of a text.
pub fn policies_of(alloc: Global, text: FileText) -> Result<WellMadePolicies, Refused>
    ensures given { Gives (λ p. p.list) (policies_of text) result }
    ensures refused { IfErr result (λ refusal. IsOfText refusal.why) }
{
    match read_policies(alloc, text.bytes()) {
        Ok(policies) => Ok(policies),
        Err(refused) => Err(text.refused(refused)),
    }
}

/// A policy text with its notes, and its policies.
pub fn noted_policies_of(
    alloc: Global,
    text: FileText,
) -> Result<(Shown, WellMadePolicies), Refused>
    ensures policies { Gives (λ r. r.1.list) (policies_of text) result }
    ensures text { IfOk result (λ r. r.0 ≡ text.bytes) }
    ensures refused { IfErr result (λ refusal. IsOfText refusal.why) }
{
    match read_noted_policies(alloc, text.bytes()) {
        Ok((policies, notes)) => Ok((Shown::noted(text.into_bytes(), notes), policies)),
        Err(refused) => Err(text.refused(refused)),
    }
}

/// The script of a text, for targets of these policies.
pub fn script_of(
    alloc: Global,
    policies: WellMadePolicies,
    text: FileText,
) -> Result<OpenedScript, Refused>
    ensures script { Gives (λ s. s.script) (script_of policies.list text) result }
    ensures policies { IfOk result (λ s. s.policies ≡ policies.list) }
    ensures refused { IfErr result (λ refusal. IsOfText refusal.why) }
{
    match read_script(alloc, text.bytes(), policies) {
        Ok(opened) => Ok(opened),
        Err(refused) => Err(text.refused(refused)),
    }
}

/// The schedule if no file names one.
pub fn no_schedule(alloc: Global) -> Schedule
    ensures { result ≡ no_schedule }
{
    Schedule {
        steps: Steps::new(Vec::new(alloc)),
        rounds: MAX_ROUNDS,
    }
}

// The schedule of a text, for the actors of this script.
fn schedule_of(alloc: Global, script: &Script, text: FileText) -> Result<Schedule, Refused>
    ensures given { Gives (λ s. s) (schedule_in script.now text) result }
    ensures refused { IfErr result (λ refusal. IsOfText refusal.why) }
    ensures there { IfOk result (λ s. list_all (is_step_there script.now.targets) s.steps ≡ true) }
{
    match read_schedule(alloc, text.bytes(), script) {
        Ok(schedule) => Ok(schedule),
        Err(refused) => Err(text.refused(refused)),
    }
}

/// The file after the script is a schedule of its actors, and may be left out.
pub struct ScheduleFile;

impl LaterFile for ScheduleFile {
    type Value = Schedule;

    ghost use Rattle.std.specs.Prelude.{◌≡◌, true};
    ghost use Rattle.std.specs.List.{list_all};
    ghost use Rattle.sb_plain.specs.Contents.{most_bytes, schedule_if};
    ghost use Rattle.sb_plain.specs.ScriptEnds.{may_be_named};
    ghost use Rattle.sb_statements.specs.Actors.{is_step_there};

    ghost most = { λ _. most_bytes };

    ghost reads = { λ _. schedule_if };

    ghost named = { λ _. may_be_named };

    ghost suits = { λ _ script schedule. list_all (is_step_there script.targets) schedule.steps ≡ true };

    fn most_bytes(&self) -> u64 {
        MAX_BYTES
    }

    fn read(
        &self,
        alloc: Global,
        script: &SoundScript,
        text: Option<FileText>,
    ) -> Result<Schedule, Refused> {
        match text {
            Some(text) => schedule_of(alloc, script, text),
            None => Ok(no_schedule(alloc)),
        }
    }
}
