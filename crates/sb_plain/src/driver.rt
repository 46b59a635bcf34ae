// How the files of a command are read: each only after all before it were read without a fault. Nothing else reads a file.
ghost use Rattle.std.specs.Prelude.{◌≡◌, ◌≤◌, ◌∷◌, [], IfOk, length, map};
ghost use Rattle.sb_plain.specs.Contents.{alone, file_in, file_within, refusal_of};
ghost use Rattle.sb_plain.specs.Readings.{IsFound, KeepsFiles};
ghost use Rattle.sb_plain.specs.ScriptEnds.{IsOne, IsReadIf, IsWithScript, later_text, script_read};

use crate::file_texts::FileText;
use crate::reading::{policies_of, script_of};
use crate::refusals::Refused;
use sb_book::OpenedScript;
use sb_message::{FileRefusal, Refusal};
use sb_outside::{FileFault, Files};
use sb_statements::SoundScript;
use std::alloc::Global;

/// The most bytes that a file may have.
pub const MAX_BYTES: u64 = 4_194_304;

// Why file `which` was not read.
fn refusal_of(fault: FileFault, which: u8) -> Refusal
    ensures { result ≡ refusal_of fault which }
{
    let why = match fault {
        FileFault::Missing => FileRefusal::Missing,
        FileFault::TooLong => FileRefusal::TooLong,
        FileFault::Failed(cause) => FileRefusal::ReadFault(cause),
        FileFault::NoMemory => return Refusal::NoMemory,
    };
    Refusal::File { which, why }
}

// The text of file `which`, which has at most 536,870,912 bytes.
fn read_text<F: Files>(
    alloc: Global,
    files: &mut F,
    name: &str,
    which: u8,
    most: u64,
) -> Result<FileText, Refused>
    requires { most ≤ 536870912 }
    ensures files { KeepsFiles F.held F.faults files.old files.new result }
    ensures found { IsFound (λ text. text) which (alone which (file_within most which)) (name.now ∷ []) (F.held files.old) result }
{
    match files.read(alloc, name, most) {
        Ok(bytes) => Ok(FileText::new(which, bytes)),
        Err(fault) => Err(Refused::new(refusal_of(fault, which))),
    }
}

/// The text of the only file of a command.
pub fn only_text<F: Files>(
    alloc: Global,
    files: &mut F,
    names: &[&str],
) -> Result<FileText, Refused>
    requires { IsOne (map (λ name. name.now) names.now) }
    ensures files { KeepsFiles F.held F.faults files.old files.new result }
    ensures found { IsFound (λ text. text) 1 (alone 1 (file_in 1)) (map (λ name. name.now) names.now) (F.held files.old) result }
{
    let Some((name, _)) = names.split_first() else {
        return Err(Refused::missing(1));
    };
    read_text(alloc, files, *name, 1, MAX_BYTES)
}

// The text of the file after the script, if one is named.
fn read_later<F: Files>(
    alloc: Global,
    files: &mut F,
    names: &[&str],
    most: u64,
) -> Result<Option<FileText>, Refused>
    requires short { most ≤ 536870912 }
    requires few { length names.now ≤ 1 }
    ensures files { KeepsFiles F.held F.faults files.old files.new result }
    ensures found { IsFound (λ text. text) 3 (later_text most) (map (λ name. name.now) names.now) (F.held files.old) result }
    ensures there { IfOk result (IsReadIf names.now) }
{
    let Some((name, _)) = names.split_first() else {
        return Ok(None);
    };
    let text = read_text(alloc, files, *name, 3, most)?;
    Ok(Some(text))
}

/// What the file after the script is, of a command that reads policies, a script for targets of these, and then at most one more file.
pub trait LaterFile {
    /// What is read of it.
    type Value: Drop;

    ghost use Rattle.std.specs.Prelude.{◌≡◌, ◌≤◌, ℕ, Option, Result, IfOk, IfErr};
    ghost use Rattle.sb_plain.specs.Contents.{FileContent, ShownRefusal};
    ghost use Rattle.sb_plain.specs.Readings.{Gives, IsOfText};
    ghost use Rattle.sb_statements.specs.declared.scripts.Script.{Script};

    ghost most: { Self → ℕ };

    ghost reads: { Self → Script → Option FileContent → Result Self.Value ShownRefusal };

    ghost named: { Self → Option FileContent → Type 0 };

    ghost suits: { Self → Script → Self.Value → Type 0 };

    /// The most bytes that the file may have.
    fn most_bytes(&self) -> u64
        ensures most { result ≡ most self.now }
        ensures bounded { result ≤ 536870912 };

    /// What is read of its text, or without one if no file is named.
    ///
    /// # Errors
    /// Why the text is refused; or `NoMemory`.
    fn read(
        &self,
        alloc: Global,
        script: &SoundScript,
        text: Option<FileText>,
    ) -> Result<Self::Value, Refused>
        requires named { named self.now text }
        ensures given { Gives (λ x. x) (reads self.now script.now text) result }
        ensures refused { IfErr result (λ refusal. IsOfText refusal.why) }
        ensures suits { IfOk result (suits self.now script.now) };
}

/// No file after the script.
pub struct NoFile;

impl LaterFile for NoFile {
    type Value = ();

    ghost use Rattle.std.specs.Prelude.{⊤};
    ghost use Rattle.sb_plain.specs.Contents.{most_bytes};
    ghost use Rattle.sb_plain.specs.ScriptEnds.{is_not_named, nothing};

    ghost most = { λ _. most_bytes };

    ghost reads = { λ _ script. nothing };

    ghost named = { λ _. is_not_named };

    ghost suits = { λ _ script value. ⊤ };

    fn most_bytes(&self) -> u64 {
        MAX_BYTES
    }

    fn read(
        &self,
        _alloc: Global,
        _script: &SoundScript,
        text: Option<FileText>,
    ) -> Result<(), Refused> {
        match text {
            Some(_) => Err(Refused::missing(3)),
            None => Ok(()),
        }
    }
}

/// The policies and the script of the first two files, and what is read of the one after them: each file is read only after those before it were read without a
/// fault.
pub fn read_script<L: LaterFile, F: Files>(
    alloc: Global,
    files: &mut F,
    names: &[&str],
    later: &L,
) -> Result<(OpenedScript, L::Value), Refused>
    requires { IsWithScript (L.named later.now) (map (λ name. name.now) names.now) }
    ensures files { KeepsFiles F.held F.faults files.old files.new result }
    ensures found { IsFound (λ r. r) 1 (script_read (L.most later.now) (L.reads later.now)) (map (λ name. name.now) names.now) (F.held files.old) result }
    ensures suits { IfOk result (λ r. L.suits later.now r.0.script r.1) }
{
    let Some((policy, others)) = names.split_first() else {
        return Err(Refused::missing(1));
    };
    let Some((script, last)) = others.split_first() else {
        return Err(Refused::missing(2));
    };
    let policy_text = read_text(alloc, files, *policy, 1, MAX_BYTES)?;
    let policies = policies_of(alloc, policy_text)?;
    let script_text = read_text(alloc, files, *script, 2, MAX_BYTES)?;
    let opened = script_of(alloc, policies, script_text)?;
    let later_text = read_later(alloc, files, last, later.most_bytes())?;
    let value = later.read(alloc, opened.script(), later_text)?;
    Ok((opened, value))
}
