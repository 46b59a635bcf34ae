// A command line under construction, as the library that reads arguments has it.
ghost use Rattle.std.specs.Prelude.{◌≡◌, IfOk, codes, false};
ghost use Rattle.clap.specs.Words.{app_of, new_app, rule_of, with_rule};

use clap::{Arg, Command};
use std::alloc::{AllocError, Global};
use std::marker::Model;

/// A command line to which arguments are added. Contracts see it as the library reads it.
pub(crate) struct LineBuilder<'a> {
    command: Command<'a>,
}

impl<'a> Drop for LineBuilder<'a> {
    fn drop(self) {
        let LineBuilder { command: _ } = self;
    }
}

impl<'a> Model for LineBuilder<'a> {
    ghost use Rattle.clap.specs.Words.{App, app_of};

    ghost Value = { App };

    ghost view = { λ line. app_of line.command };
}

impl<'a> LineBuilder<'a> {
    /// A command line without arguments.
    pub(crate) fn new(alloc: Global) -> LineBuilder<'a>
        ensures { result ≡ new_app (codes "sandbox") }
    {
        LineBuilder {
            command: Command::new(alloc, "sandbox"),
        }
    }

    /// The same with one argument more.
    ///
    /// # Errors
    /// If there was no memory for it.
    pub(crate) fn with(self, argument: Arg<'a>) -> Result<LineBuilder<'a>, AllocError>
        requires { argument.global ≡ false }
        ensures { IfOk result (λ line. line ≡ with_rule self.entry (rule_of argument.entry)) }
    {
        let LineBuilder { command } = self;
        let command = command.arg(argument)?;
        Ok(LineBuilder { command })
    }

    /// The command line for the library.
    pub(crate) fn into_command(self) -> Command<'a>
        ensures { app_of result ≡ self.entry }
    {
        let LineBuilder { command } = self;
        command
    }
}
