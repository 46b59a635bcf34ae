// Which command the arguments are.
ghost use Rattle.std.specs.Prelude.{◌≡◌, IfOk, MatchResult, Ok, Err};
ghost use Rattle.sb_commands.specs.Commands.{HasNumbers, HasValues, IsCommandOf, command_of, files_of};
ghost use Rattle.sb_commands.specs.Forms.{form_of};
ghost use Rattle.sb_commands.specs.Usage.{fault_of, texts};
ghost use Rattle.sb_commands.specs.Values.{values_of};
ghost use Rattle.sb_commands.specs.declared.works.Work.TheVariants.{Threaded};

use crate::command_line::{CommandValues, found_values, line_of};
use crate::file_names::FileNames;
use crate::forms::{CommandForm, form_by};
use crate::usage::usage_test;
use crate::usage_faults::UsageFault;
use crate::works::{ThreadedWork, Work};
use sb_base::NoMemory;
use std::alloc::Global;
use std::marker::Model;

// The values of arguments that are a command of this form.
fn read_values<'a>(
    alloc: Global,
    form: CommandForm<'static>,
    words: &'a [String],
) -> Result<CommandValues<'a>, NoMemory>
    requires { IsCommandOf (form_of form) (texts words.now) }
    ensures { IfOk result (λ values. HasValues (form_of form.entry) (texts words.now) (values_of values)) }
{
    let line = line_of(alloc, form)?;
    match line.into_command().try_get_matches_from(words) {
        Ok(values) => Ok(found_values(form, &values)),
        // The library takes all arguments that are a command, if it has the memory.
        Err(_) => Err(NoMemory),
    }
}

/// Arguments that are a command, with its form. Contracts see the command.
#[derive(Drop)]
pub struct CommandWords<'a> {
    form: CommandForm<'static>,
    words: &'a [String],
}

impl<'a> Model for CommandWords<'a> {
    ghost use Rattle.sb_commands.specs.Commands.{Command, IsCommandOf, command_in};
    ghost use Rattle.sb_commands.specs.Forms.{form_of};
    ghost use Rattle.sb_commands.specs.Usage.{texts};

    ghost Value = { Command };

    ghost view = { λ c. command_in (form_of c.form) (texts c.words.now) };

    ghost invariant = { λ c. IsCommandOf (form_of c.form) (texts c.words.now) };
}

impl<'a> CommandWords<'a> {
    /// What the command does.
    pub fn work(&self) -> Work
        ensures { result ≡ self.now.work }
    {
        self.form.work
    }

    /// The values of its arguments, by the library for command lines. Its numbers are within the bounds of its form.
    ///
    /// # Errors
    /// `NoMemory` if there was none to read the arguments.
    pub fn values(&self, alloc: Global) -> Result<CommandValues<'a>, NoMemory>
        ensures values { IfOk result (λ values. values_of values ≡ self.now.values) }
        ensures numbers { HasNumbers self.now }
    {
        read_values(alloc, self.form, self.words)
    }

    /// The names of its files, by these values.
    pub fn files(&self, values: CommandValues<'a>) -> FileNames<'a>
        requires { values_of values ≡ self.now.values }
        ensures { result ≡ files_of self.now }
    {
        FileNames::of(self.form, values)
    }
}

/// Arguments that are a command on threads. Contracts see the command.
#[derive(Drop)]
pub struct ThreadedWords<'a> {
    work: ThreadedWork,
    words: CommandWords<'a>,
}

impl<'a> Model for ThreadedWords<'a> {
    ghost use Rattle.std.specs.Prelude.{◌≡◌};
    ghost use Rattle.sb_commands.specs.Commands.{Command};
    ghost use Rattle.sb_commands.specs.declared.works.Work.TheVariants.{Threaded};

    ghost Value = { Command };

    ghost view = { λ t. t.words };

    ghost invariant = { λ t. t.words.work ≡ Threaded t.work };
}

impl<'a> ThreadedWords<'a> {
    /// A command that does this.
    pub fn new(work: ThreadedWork, words: CommandWords<'a>) -> ThreadedWords<'a>
        requires { words.work ≡ Threaded work }
        ensures { result ≡ words.entry }
    {
        ThreadedWords { work, words }
    }

    /// What the command does.
    pub fn work(&self) -> ThreadedWork
        ensures { self.now.work ≡ Threaded result }
    {
        self.work
    }

    /// The values of its arguments. Its numbers are within the bounds of its form.
    ///
    /// # Errors
    /// `NoMemory` if there was none to read the arguments.
    pub fn values(&self, alloc: Global) -> Result<CommandValues<'a>, NoMemory>
        ensures values { IfOk result (λ values. values_of values ≡ self.now.values) }
        ensures numbers { HasNumbers self.now }
    {
        self.words.values(alloc)
    }

    /// The names of its files, by these values.
    pub fn files(&self, values: CommandValues<'a>) -> FileNames<'a>
        requires { values_of values ≡ self.now.values }
        ensures { result ≡ files_of self.now }
    {
        self.words.files(values)
    }
}

/// The command that the arguments are, by the table of forms. Does not allocate.
///
/// # Errors
/// The first fault: that of the command's name, then that of the arguments after it from left to right, then what is missing.
pub fn command_of(words: &[String]) -> Result<CommandWords<'_>, UsageFault>
    ensures exact { MatchResult result (λ command. command_of (texts words.now) ≡ Ok command) (λ fault. command_of (texts words.now) ≡ Err (fault_of fault)) }
{
    let Some((name, later)) = words.split_first() else {
        return Err(UsageFault::NoCommand);
    };
    let Some(form) = form_by(name.as_str()) else {
        return Err(UsageFault::UnknownCommand);
    };
    match usage_test(form, words.len(), later) {
        Ok(()) => Ok(CommandWords { form, words }),
        Err(fault) => Err(fault),
    }
}
