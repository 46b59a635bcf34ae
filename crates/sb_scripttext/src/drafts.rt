// What is so far there of a script, as the reader keeps it.
ghost use Rattle.std.specs.Prelude.{◌≡◌, ◌++◌, [], true, OnOk};
ghost use Rattle.std.specs.List.{list_any};
ghost use Rattle.sb_kernel.specs.Openings.{is_named, opening};
ghost use Rattle.sb_scripttext.specs.Lines.{is_target_named};
ghost use Rattle.sb_scripttext.specs.ScriptTexts.{script_of};
ghost use Rattle.sb_scripttext.specs.Drafts.{nothing, is_opening, is_in_thread, with_start, with_target, one_thread_more, with_thread, one_statement_more, in_last_thread, named_by, with_statement};
ghost use Rattle.sb_text.specs.Steps.{Becomes};

use crate::faults::{KindRefused, ScriptKind, ScriptLimit};
use crate::placing::Placed;
use sb_base::{Items, NoMemory};
use sb_kernel::Kernel;
use sb_statements::{
    MAX_START_LINES, MAX_STATEMENTS, MAX_TARGETS, MAX_THREADS, Script, StartLine, Statement,
    Statements, TargetScript, Targets,
};
use sb_text::WordFault;
use std::alloc::Global;
use std::mem;

const USUAL_PATIENCE: u32 = 10_000;

/// Where a statement is. A place is the number of bytes from there to the line's end.
#[derive(Clone, Copy)]
pub(crate) struct StatementAt {
    /// Its line.
    pub(crate) line: u32,
    /// The place of the target that it names, if it names one.
    pub(crate) target: usize,
    /// The place of the channel that it names, if it names one.
    pub(crate) channel: usize,
}

/// A target and a channel that a statement names.
#[derive(Clone, Copy)]
pub(crate) struct Named {
    /// Where the statement is.
    pub(crate) at: StatementAt,
    /// The target, from 0.
    pub(crate) target: u32,
    /// The channel, from 0.
    pub(crate) channel: u32,
}

/// What statements name, in the order of their lines.
pub(crate) type NamedWords = Items<Named>;

// With what a statement names.
fn add_named(named: &mut NamedWords, at: StatementAt, statement: &Statement) -> Result<(), NoMemory>
    ensures { OnOk result (named.new ≡ named.old ++ named_by at statement.now) }
{
    match statement {
        Statement::Call { .. } => Ok(()),
        Statement::Load { target, word }
        | Statement::Store { target, word, .. }
        | Statement::Exchange { target, word, .. }
        | Statement::Wait { target, word, .. } => named.push(Named {
            at,
            target: *target,
            channel: word.channel,
        }),
    }
}

// One more thread of a target.
fn add_thread_to(alloc: Global, target: &mut TargetScript) -> Result<(), KindRefused>
    ensures { Becomes (one_thread_more target.old) result target.new }
{
    if target.threads.len() >= MAX_THREADS {
        return Err(KindRefused::Fault(ScriptKind::TooMany(ScriptLimit::Threads)));
    }
    target.threads.push(Statements::empty(alloc))?;
    Ok(())
}

// One more statement of a thread.
fn add_statement_to(statements: &mut Statements, statement: Statement) -> Result<(), KindRefused>
    ensures { Becomes (one_statement_more statement statements.old) result statements.new }
{
    if statements.len() >= MAX_STATEMENTS {
        return Err(KindRefused::Fault(ScriptKind::TooMany(ScriptLimit::Statements)));
    }
    statements.push(statement)?;
    Ok(())
}

// One more statement of the last thread of a target. After an error the target is unspecified.
fn add_to_last_thread(target: &mut TargetScript, statement: Statement) -> Result<(), KindRefused>
    ensures { Becomes (in_last_thread statement target.old) result target.new }
{
    let Some(mut last) = target.threads.pop() else {
        return Err(KindRefused::Fault(ScriptKind::UnknownWord(WordFault::Misplaced)));
    };
    add_statement_to(&mut last, statement)?;
    target.threads.push(last)?;
    Ok(())
}

/// What is so far there of a script. The last target is open for threads, and its last thread for statements.
#[derive(Drop)]
pub(crate) struct Draft {
    /// The patience, if a line told it.
    pub(crate) patience: Option<u32>,
    start: Placed,
    targets: Targets,
    named: NamedWords,
}

impl Draft {
    /// Nothing.
    pub(crate) fn new(alloc: Global) -> Draft
        ensures { result ≡ nothing }
    {
        Draft {
            patience: None,
            start: Placed::new(alloc),
            targets: Targets::empty(alloc),
            named: NamedWords::empty(alloc),
        }
    }

    /// Whether there is no target.
    pub(crate) fn is_opening(&self) -> bool
        ensures { result ≡ is_opening self.now }
    {
        matches!(self.targets.as_slice(), [])
    }

    /// Whether the last target has a thread.
    #[tactic(auto, using(crate::proofs::LastChanged::last_in_thread, crate::proofs::LastChanged::none_in_thread))]
    pub(crate) fn is_in_thread(&self) -> bool
        ensures { result ≡ is_in_thread self.now }
    {
        match self.targets.as_slice().split_last() {
            Some((last, _)) => last.threads.len() > 0,
            None => false,
        }
    }

    /// Whether a target has this name.
    pub(crate) fn is_named(&self, name: &[u8]) -> bool
        ensures { result ≡ list_any (is_target_named name.now) self.now.targets }
    {
        let targets = self.targets.as_slice();
        targets.iter().any(|target| target.name.bytes() == name)
    }

    /// One more opening line. After an error the draft is unspecified.
    pub(crate) fn add_start(&mut self, alloc: Global, line: StartLine) -> Result<(), KindRefused>
        requires name { is_named line ≡ true }
        ensures { Becomes (with_start self.old line) result self.new }
    {
        if self.start.len() >= MAX_START_LINES {
            if self.start.can_place(&line) {
                return Err(KindRefused::Fault(ScriptKind::TooMany(ScriptLimit::Openings)));
            }
            return Err(KindRefused::Fault(ScriptKind::BadStart(self.start.fault_of(&line))));
        }
        let start = mem::replace(&mut self.start, Placed::new(alloc));
        self.start = start.with(line)?;
        Ok(())
    }

    /// One more target.
    pub(crate) fn add_target(&mut self, target: TargetScript) -> Result<(), KindRefused>
        ensures { Becomes (with_target self.old target) result self.new }
    {
        if self.targets.len() >= MAX_TARGETS {
            return Err(KindRefused::Fault(ScriptKind::TooMany(ScriptLimit::Targets)));
        }
        self.targets.push(target)?;
        Ok(())
    }

    /// One more thread of the last target. After an error the draft is unspecified.
    pub(crate) fn add_thread(&mut self, alloc: Global) -> Result<(), KindRefused>
        ensures { Becomes (with_thread self.old) result self.new }
    {
        let Some(mut last) = self.targets.pop() else {
            return Err(KindRefused::Fault(ScriptKind::UnknownWord(WordFault::Misplaced)));
        };
        add_thread_to(alloc, &mut last)?;
        self.targets.push(last)?;
        Ok(())
    }

    /// One more statement of the last thread. After an error the draft is unspecified.
    pub(crate) fn add_statement(
        &mut self,
        at: StatementAt,
        statement: Statement,
    ) -> Result<(), KindRefused>
        ensures { Becomes (with_statement self.old at statement) result self.new }
    {
        let Some(mut last) = self.targets.pop() else {
            return Err(KindRefused::Fault(ScriptKind::UnknownWord(WordFault::Misplaced)));
        };
        add_named(&mut self.named, at, &statement)?;
        add_to_last_thread(&mut last, statement)?;
        self.targets.push(last)?;
        Ok(())
    }

    /// The script, the kernel in which its opening lines are placed, and what its statements name.
    pub(crate) fn into_script(self) -> (Script, Kernel, NamedWords)
        ensures script { result.0 ≡ script_of self }
        ensures kernel { result.1 ≡ opening self.start }
        ensures named { result.2 ≡ self.named }
    {
        let Draft {
            patience,
            start,
            targets,
            named,
        } = self;
        let (start, kernel) = start.into_parts();
        let script = Script {
            patience: patience.unwrap_or(USUAL_PATIENCE),
            start,
            targets,
        };
        (script, kernel, named)
    }
}
