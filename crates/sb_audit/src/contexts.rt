// What a transcript is audited against.
ghost use Rattle.std.specs.Prelude.{◌≡◌, ◌<◌, length};
ghost use Rattle.sb_actor.specs.Found.{AreFound};
ghost use Rattle.sb_actor.specs.Places.{clean_channels};
ghost use Rattle.sb_actor.specs.ThreadTable.{has_clean};
ghost use Rattle.sb_statements.specs.Scripts.{is_clean};
ghost use Rattle.sb_audit.specs.Audited.{policy_of};
ghost use Rattle.sb_audit.specs.Clauses.{has_channel};

use sb_actor::establish_found;
use sb_book::ReadyScript;
use sb_rule::Policy;
use sb_statements::{CleanTable, SoundScript, clean_table, sound_parts};
use std::marker::Model;

/// What a transcript is audited against: policies and a script that is ready for them, with a table of its clean channels. Contracts
/// see the plain policies and the plain script.
pub(crate) struct Context<'a> {
    ready: &'a ReadyScript,
    clean: CleanTable,
}

impl<'a> Drop for Context<'a> {
    fn drop(self) {
        let Context { ready: _, clean: _ } = self;
    }
}

impl<'a> Model for Context<'a> {
    ghost use Rattle.sb_book.specs.ReadyScripts.{Ready};
    ghost use Rattle.sb_statements.specs.CleanTables.{IsCleanTable};

    ghost Value = { Ready };

    ghost view = { λ c. c.ready.now };

    ghost invariant = { λ c. IsCleanTable c.ready.now.script c.clean };
}

impl<'a> Context<'a> {
    /// Policies and a script that is ready for them.
    pub(crate) fn new(ready: &'a ReadyScript) -> Context<'a>
        ensures { result ≡ ready.now }
    {
        Context {
            ready,
            clean: clean_table(ready.script()),
        }
    }

    /// The script.
    pub(crate) fn script(&self) -> &'a SoundScript
        ensures { result.now ≡ self.now.script }
    {
        self.ready.script()
    }

    /// What holds of each statement of the script by its place. It does nothing.
    pub(crate) fn establish_found(&self)
        ensures { AreFound self.now.script }
    {
        establish_found(self.script());
    }

    /// The policy of a target, which must be there.
    pub(crate) fn policy_of(&self, target: u32) -> &'a Policy
        requires there { target < length self.now.script.targets }
        ensures { result.now ≡ policy_of self.now.policies self.now.script target }
    {
        self.ready.establish_ready();
        let number = self.script().targets[target as usize].policy;
        &self.ready.policies().policies().list[number as usize]
    }

    /// Whether a target, which must be there, has a channel.
    pub(crate) fn has_channel(&self, target: u32, channel: u32) -> bool
        requires there { target < length self.now.script.targets }
        ensures { result ≡ has_channel self.now.script target channel }
    {
        channel < self.script().channel_count(target)
    }

    /// Whether a channel of a target, which must be there, is clean. One that is not there is.
    #[tactic(auto, using(crate::proofs::Clean::clean_past))]
    pub(crate) fn is_clean(&self, target: u32, channel: u32) -> bool
        requires there { target < length self.now.script.targets }
        ensures { result ≡ is_clean self.now.script target channel }
    {
        sound_parts();
        let script = self.script();
        script.establish_sound();
        let _at_most_8 = script.target_count();
        if channel < script.channel_count(target) {
            self.clean.is_clean(target, channel)
        } else {
            true
        }
    }

    /// Whether a target, which must be there, has a clean channel.
    #[tactic(auto, using(crate::proofs::Clean::clean_more))]
    pub(crate) fn has_clean(&self, target: u32) -> bool
        requires there { target < length self.now.script.targets }
        ensures { result ≡ has_clean (clean_channels self.now.script target) }
    {
        let mut some = false;
        for channel in 0..self.script().channel_count(target) {
            some = some || self.is_clean(target, channel);
        }
        some
    }
}
