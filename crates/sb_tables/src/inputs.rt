// The script of a row, with the policies for which it is ready, and the schedule of a row.
ghost use Rattle.std.specs.Prelude.{◌≡◌, true, IfOk};
ghost use Rattle.std.specs.List.{list_all};
ghost use Rattle.sb_statements.specs.Actors.{is_step_there};

use sb_book::ReadyScript;
use sb_rows::RowFault;
use sb_rule::WellMadePolicies;
use sb_ruletext::{TextRefused, read_policies};
use sb_scripttext::{ScheduleRefused, ScriptRefused, read_schedule, read_script};
use sb_statements::{Schedule, Script, Statement};
use std::alloc::Global;
use std::fs;
use std::rt::Files;

// What the targets of the scripts may do.
const POLICY: &str = "sandbox-policy 1
policy web
allow event.create when name is \"\\good\"
deny ping when cookie is 9
allow ping
policy none
";

// As many bytes as the sandbox reads of a script or a schedule.
const MAX_BYTES: usize = 4_194_304;

// Lines that rows separate by semicolons, after a first line, each with this word before it.
fn lines(alloc: Global, first: &str, word: &str, text: &str) -> Result<String, RowFault> {
    let mut out = String::from_str(alloc, first)?;
    for line in text.split(';') {
        if !line.trim_ascii().is_empty() {
            write!(out, "{word}{line}\n")?;
        }
    }
    if out.len() > MAX_BYTES {
        return Err(RowFault::TooMany);
    }
    Ok(out)
}

/// The script of a row, without its first line, ready for the policies of all rows. Its lines are separated by semicolons.
pub fn inputs_of(alloc: Global, text: &str) -> Result<ReadyScript, RowFault> {
    let text = text_of_script(alloc, text)?;
    ready_script(alloc, text.as_str())
}

/// The text of the script of a row, of which each semicolon ends a line. Its first line is the version.
pub fn text_of_script(alloc: Global, text: &str) -> Result<String, RowFault> {
    lines(alloc, "sandbox-script 1\n", "", text)
}

/// The script of a text, ready for the policies of all rows.
pub fn ready_script(alloc: Global, text: &str) -> Result<ReadyScript, RowFault> {
    ready_by(alloc, POLICY.as_bytes(), text.as_bytes())
}

/// The script in the file of one name, ready for the policies in the file of another.
pub fn read_inputs<R: Files + AllocGlobal>(
    rt: &R,
    alloc: Global,
    policy: &str,
    script: &str,
) -> Result<ReadyScript, RowFault> {
    let Ok(policy) = fs::read(rt, policy) else {
        return Err(RowFault::BadText);
    };
    let Ok(script) = fs::read(rt, script) else {
        return Err(RowFault::BadText);
    };
    ready_by(alloc, &policy, &script)
}

// A script that is ready for policies, by their texts.
fn ready_by(alloc: Global, policy: &[u8], script: &[u8]) -> Result<ReadyScript, RowFault> {
    let policies = policies_of(alloc, policy)?;
    if script.len() > MAX_BYTES {
        return Err(RowFault::TooMany);
    }
    match read_script(alloc, script, policies) {
        Ok(opened) => Ok(opened.into_parts().0),
        Err(ScriptRefused::Fault(_)) => Err(RowFault::BadWords),
        Err(ScriptRefused::NoMemory) => Err(RowFault::NoMemory),
    }
}

/// The text whose only policy has these rules, separated by semicolons. The first is on line 3.
pub fn text_of_rules(alloc: Global, rules: &str) -> Result<String, RowFault> {
    lines(alloc, "sandbox-policy 1\npolicy web\n", "", rules)
}

/// The policies of the text of rules.
pub fn policies_of_rules(alloc: Global, rules: &str) -> Result<WellMadePolicies, RowFault> {
    let text = text_of_rules(alloc, rules)?;
    policies_of(alloc, text.as_str().as_bytes())
}

/// The policies of the text of rules of version 2, in which a rule may be `readonly`.
pub fn policies_of_second_version(
    alloc: Global,
    rules: &str,
) -> Result<WellMadePolicies, RowFault> {
    let text = lines(alloc, "sandbox-policy 2\npolicy web\n", "", rules)?;
    policies_of(alloc, text.as_str().as_bytes())
}

// The policies of a text.
fn policies_of(alloc: Global, policy: &[u8]) -> Result<WellMadePolicies, RowFault> {
    if policy.len() > MAX_BYTES {
        return Err(RowFault::TooMany);
    }
    match read_policies(alloc, policy) {
        Ok(policies) => Ok(policies),
        Err(TextRefused::Fault(_)) => Err(RowFault::BadPolicy),
        Err(TextRefused::NoMemory) => Err(RowFault::NoMemory),
    }
}

/// The statements of a thread of the first target, or none if it has no such thread.
pub fn statements_of(script: &Script, thread: usize) -> &[Statement] {
    let [target, ..] = script.targets.as_slice() else {
        return &[];
    };
    match target.threads.as_slice().get(thread) {
        Some(statements) => statements.as_slice(),
        None => &[],
    }
}

/// The schedule of a row for the actors of a script: an actor and how many steps it makes, separated by semicolons. There are no
/// rounds.
pub fn schedule_of(alloc: Global, text: &str, script: &Script) -> Result<Schedule, RowFault>
    ensures { IfOk result (λ s. list_all (is_step_there script.now.targets) s.steps ≡ true) }
{
    let mut text = lines(alloc, "sandbox-schedule 1\n", "step ", text)?;
    text.push_str("rounds 0\n")?;
    if text.len() > MAX_BYTES {
        return Err(RowFault::TooMany);
    }
    match read_schedule(alloc, text.as_str().as_bytes(), script) {
        Ok(schedule) => Ok(schedule),
        Err(ScheduleRefused::Fault(_)) => Err(RowFault::BadWords),
        Err(ScheduleRefused::NoMemory) => Err(RowFault::NoMemory),
    }
}
