// Scripts that are known to be sound.
ghost use Rattle.std.specs.Prelude.{◌≡◌, true, false, IfOk, IfErr, ◌<◌, ◌≤◌, length, slice_get};
ghost use Rattle.std.specs.List.{list_all};
ghost use Rattle.sb_block.specs.Blocks.{has_units};
ghost use Rattle.sb_base.specs.Wide.{is_unit};
ghost use Rattle.sb_statements.specs.Soundness.{is_sound, channels_of};
ghost use Rattle.sb_statements.specs.SoundScripts.{IsSoundScript, has_short_name, has_short_names, is_sound_script};
ghost use Rattle.sb_statements.specs.Units.{script_has_units, statement_has_units, target_has_units, thread_has_units};
ghost use Rattle.sb_statements.specs.Actors.{thread_count};

use crate::scripts::{Script, TargetScript};
use crate::soundness::sound;
use crate::statements::{Statement, Statements};
use sb_call::Arg;
use std::marker::Model;
use std::ops::Deref;

/// A script that is sound, whose strings are made of units of 16 bits, and whose targets have short names. Contracts see it as
/// the script.
pub struct SoundScript {
    script: Script,
}

// What a script holds is dropped by one call, which is proved here once.
impl Drop for SoundScript {
    fn drop(self) {
        let SoundScript { script: _ } = self;
    }
}

impl Model for SoundScript {
    ghost use Rattle.sb_statements.specs.SoundScripts.{IsSoundScript};
    ghost use Rattle.sb_statements.specs.declared.scripts.Script.{Script};

    ghost Value = { Script };

    ghost view = { λ s. s.script };

    ghost invariant = { λ s. IsSoundScript s.script };
}

fn is_unit(unit: &u16) -> bool
    ensures { result ≡ is_unit unit.now }
{
    u32::from(*unit) < 1 << 16
}

fn are_units(units: &[u16]) -> bool
    ensures { result ≡ list_all is_unit units.now }
{
    units.iter().all(is_unit)
}

fn has_units(arg: &Arg) -> bool
    ensures { result ≡ has_units arg.now }
{
    match arg {
        Arg::Num(_) => true,
        Arg::Str(text) => are_units(text.as_units()),
    }
}

fn args_have_units(args: &[Arg]) -> bool
    ensures { result ≡ list_all has_units args.now }
{
    args.iter().all(has_units)
}

fn statement_has_units(statement: &Statement) -> bool
    ensures { result ≡ statement_has_units statement.now }
{
    match statement {
        Statement::Call { args, .. } => args_have_units(args),
        Statement::Store { .. }
        | Statement::Exchange { .. }
        | Statement::Load { .. }
        | Statement::Wait { .. } => true,
    }
}

fn thread_has_units(statements: &Statements) -> bool
    ensures { result ≡ thread_has_units statements.now }
{
    statements.iter().all(statement_has_units)
}

fn target_has_units(target: &TargetScript) -> bool
    ensures { result ≡ target_has_units target.now }
{
    target.threads.iter().all(thread_has_units)
}

fn script_has_units(script: &Script) -> bool
    ensures { result ≡ script_has_units script.now }
{
    script.targets.iter().all(target_has_units)
}

fn has_short_name(target: &TargetScript) -> bool
    ensures { result ≡ has_short_name target.now }
{
    !target.name.bytes().is_empty()
}

fn has_short_names(script: &Script) -> bool
    ensures { result ≡ has_short_names script.now }
{
    script.targets.iter().all(has_short_name)
}

impl SoundScript {
    /// The script, if it is sound. Does not allocate. That strings are made of units of 16 bits and that names are short
    /// follows from their types; it is looked at here so that proofs know it.
    ///
    /// # Errors
    /// The script is given back if it is not sound.
    pub fn new(script: Script) -> Result<SoundScript, Script>
        ensures ok { IfOk result (λ kept. kept ≡ script) }
        ensures found { IfOk result (λ kept. is_sound_script script ≡ true) }
        ensures err { IfErr result (λ kept. kept ≡ script) }
        ensures refused { IfErr result (λ kept. is_sound_script script ≡ false) }
    {
        if sound(&script) && script_has_units(&script) && has_short_names(&script) {
            Ok(SoundScript { script })
        } else {
            Err(script)
        }
    }

    /// The script, which is known to be sound. Does not allocate.
    pub fn of(script: Script) -> SoundScript
        requires { IsSoundScript script }
        ensures { result ≡ script }
    {
        SoundScript { script }
    }

    /// The script.
    #[inline(always)]
    pub fn script(&self) -> &Script
        ensures { result.now ≡ self.now }
    {
        &self.script
    }

    /// What holds of every sound script. It does nothing.
    #[inline(always)]
    pub fn establish_sound(&self)
        ensures sound { is_sound self.now ≡ true }
        ensures units { script_has_units self.now ≡ true }
        ensures short { has_short_names self.now ≡ true }
    {
        let _patience = self.script.patience;
    }
}

impl Deref for SoundScript {
    type Target = Script;

    ghost deref_gives = { λ sound script. script ≡ sound };

    #[inline(always)]
    fn deref(&self) -> &Script {
        &self.script
    }
}

impl SoundScript {
    /// How many targets the script has: at most 8.
    #[tactic(auto, using(crate::proofs::Bounds::few_targets))]
    pub fn target_count(&self) -> u32
        ensures count { result ≡ length self.now.targets }
        ensures few { result ≤ 8 }
    {
        self.establish_sound();
        self.targets.len() as u32
    }

    /// How many channels a target has, which must be there: 1 to 8.
    #[tactic(auto, using(crate::proofs::Bounds::some_channels))]
    pub fn channel_count(&self, target: u32) -> u32
        requires there { target < length self.now.targets }
        ensures count { result ≡ channels_of (slice_get self.now.targets target) }
        ensures some { 0 < result }
        ensures few { result ≤ 8 }
    {
        self.establish_sound();
        self.targets[target as usize].channels
    }

    /// How many threads a target has, which must be there: at most 4.
    #[tactic(auto, using(crate::proofs::Bounds::few_threads))]
    pub fn thread_count(&self, target: u32) -> u32
        requires there { target < length self.now.targets }
        ensures count { result ≡ thread_count (slice_get self.now.targets target) }
        ensures few { result ≤ 4 }
    {
        self.establish_sound();
        self.targets[target as usize].threads.len() as u32
    }
}
