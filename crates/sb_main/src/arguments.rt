// The arguments of the program. Argument 0, the name under which the program was started, is not among them: it need not be UTF-8, and nothing reads it.
ghost use Rattle.std.specs.Prelude.{◌≡◌, IfErr};
ghost use Rattle.sb_main.specs.Gathering.{gathering_refusal};
ghost use Rattle.sb_main.specs.Program.{IsUngathered};

use sb_commands::UsageFault;
use sb_message::Refusal;
use std::env::{self, Env, FillError};
use std::io::ErrorKind;

// The environment of a program, whose arguments begin after its name.
#[derive(Drop)]
struct AfterName<'a, R> {
    rt: &'a R,
}

impl<R: Env> Env for AfterName<'_, R> {
    fn arg(&self, i: usize, buf: &mut [u8]) -> Result<usize, FillError> {
        self.rt.arg(i.saturating_add(1), buf)
    }

    fn var(&self, name: &str, buf: &mut [u8]) -> Result<usize, FillError> {
        self.rt.var(name, buf)
    }

    fn var_at(&self, i: usize, buf: &mut [u8]) -> Result<usize, FillError> {
        self.rt.var_at(i, buf)
    }
}

// The arguments after the name of the program, as the system gives them.
pub(crate) fn given_arguments<R: Env + AllocGlobal>(rt: &R) -> Result<Vec<String>, Refusal>
    ensures { IfErr result IsUngathered }
{
    match env::args(&(AfterName { rt }, rt.alloc())) {
        Ok(arguments) => {
            let all: Result<Vec<String>, _> = arguments.collect(rt.alloc());
            match all {
                Ok(all) => Ok(all),
                Err(_) => Err(Refusal::NoMemory),
            }
        }
        Err(error) => Err(no_words(error.kind())),
    }
}

// Arguments that were not gathered are not UTF-8, or there was no memory for them.
fn no_words(kind: ErrorKind) -> Refusal
    ensures { result ≡ gathering_refusal kind }
{
    match kind {
        ErrorKind::OutOfMemory => Refusal::NoMemory,
        _ => Refusal::Usage(UsageFault::NotUtf8),
    }
}
