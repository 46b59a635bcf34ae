// What a rule does with a call, and the bits of an access to which `readonly` cuts.
ghost use Rattle.std.specs.Prelude.{◌≡◌};
ghost use Rattle.sb_rule.specs.Actions.{action_word};

/// What a rule does with a call. Each action has a number by which compiled rules name it.
#[derive(Clone, Copy, PartialEq)]
pub enum Action {
    /// The call is performed.
    Allow = 0,
    /// The call is denied.
    Deny = 1,
    /// The call is denied, and the rule is one that its author wants to hear of.
    Alarm = 2,
    /// The call is not performed, and the target is told that it was.
    Fake = 3,
    /// The call is performed with its access cut to the bits that read.
    ReadOnly = 4,
}

impl Action {
    /// The word by which texts name the action, as `allow`.
    pub fn word(self) -> &'static str
        ensures { result.now ≡ action_word self }
    {
        match self {
            Action::Allow => "allow",
            Action::Deny => "deny",
            Action::Alarm => "alarm",
            Action::Fake => "fake",
            Action::ReadOnly => "readonly",
        }
    }
}

/// The bits of an access that only read: read data, execute, read EA, read attributes, read control, synchronize, and generic read and
/// execute. A rule that says readonly grants no others.
pub const READ_ONLY_BITS: u64 = 0xA012_00A9;

/// All other bits of an access: those that write, delete or change, as in Chromium's Windows sandbox.
pub const WRITING_BITS: u64 = 0x5FED_FF56;
