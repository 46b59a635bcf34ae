// The fault of a text of any kind, from its reader to its message.
ghost use Rattle.std.specs.Prelude.{◌≡◌, Some};
ghost use Rattle.sb_message.specs.TextFaults.{fault_code, fault_text};

use sb_audit::Refuted;
use sb_dup::{MoveFault, MoveKind};
use sb_link::{LinkFault, LinkKind};
use sb_ruletext::{PolicyFault, PolicyFaultKind};
use sb_scripttext::{ScheduleFault, ScheduleKind, ScriptFault, ScriptKind};
use sb_text::LineFault;
use std::fmt;

/// The first fault of a text.
#[derive(Clone, Copy)]
pub enum TextFault {
    /// Of policies.
    Policy(PolicyFault),
    /// Of a script.
    Script(ScriptFault),
    /// Of a schedule.
    Schedule(ScheduleFault),
    /// Of links.
    Links(LinkFault),
    /// Of moves.
    Moves(MoveFault),
    /// The transcript is refuted at this line by this clause, with what is due there.
    Transcript(Refuted),
}

/// What can be wrong with a text of one kind.
pub trait TextFaultKind: Drop {
    ghost use Rattle.sb_message.specs.declared.text_faults.TextFault.{TextFault};
    ghost use Rattle.sb_text.specs.declared.refusals.LineFault.{LineFault};

    ghost told: { LineFault Self → TextFault };

    /// A fault of this kind as the fault of a text.
    fn told(fault: LineFault<Self>) -> TextFault
        ensures { result ≡ told fault };
}

impl TextFaultKind for PolicyFaultKind {
    ghost use Rattle.sb_message.specs.declared.text_faults.TextFault.TheVariants.{Policy};

    ghost told = { Policy };

    fn told(fault: PolicyFault) -> TextFault
        ensures { result ≡ TextFault.Policy fault }
    {
        TextFault::Policy(fault)
    }
}

impl TextFaultKind for ScriptKind {
    ghost use Rattle.sb_message.specs.declared.text_faults.TextFault.TheVariants.{Script};

    ghost told = { Script };

    fn told(fault: ScriptFault) -> TextFault
        ensures { result ≡ TextFault.Script fault }
    {
        TextFault::Script(fault)
    }
}

impl TextFaultKind for ScheduleKind {
    ghost use Rattle.sb_message.specs.declared.text_faults.TextFault.TheVariants.{Schedule};

    ghost told = { Schedule };

    fn told(fault: ScheduleFault) -> TextFault
        ensures { result ≡ TextFault.Schedule fault }
    {
        TextFault::Schedule(fault)
    }
}

impl TextFaultKind for LinkKind {
    ghost use Rattle.sb_message.specs.declared.text_faults.TextFault.TheVariants.{Links};

    ghost told = { Links };

    fn told(fault: LinkFault) -> TextFault
        ensures { result ≡ TextFault.Links fault }
    {
        TextFault::Links(fault)
    }
}

impl TextFaultKind for MoveKind {
    ghost use Rattle.sb_message.specs.declared.text_faults.TextFault.TheVariants.{Moves};

    ghost told = { Moves };

    fn told(fault: MoveFault) -> TextFault
        ensures { result ≡ TextFault.Moves fault }
    {
        TextFault::Moves(fault)
    }
}

impl TextFault {
    /// The exit code of a command that is refused for this.
    pub(crate) fn exit_code(self) -> u8
        ensures { result ≡ fault_code self }
    {
        match self {
            TextFault::Policy(_) => 3,
            TextFault::Script(_) => 4,
            TextFault::Schedule(_) => 5,
            TextFault::Links(_) => 12,
            TextFault::Moves(_) => 13,
            TextFault::Transcript(_) => 14,
        }
    }
}

impl fmt::Display for TextFault {
    ghost output = { λ fault. Some (fault_text fault) };

    fn fmt<W: fmt::Write>(&self, f: &mut fmt::Formatter<W>) -> fmt::Result {
        let (text, line, kind) = match *self {
            TextFault::Policy(fault) => ("policy", fault.line, fault.kind.number()),
            TextFault::Script(fault) => ("script", fault.line, fault.kind.number()),
            TextFault::Schedule(fault) => ("schedule", fault.line, fault.kind.number()),
            TextFault::Links(fault) => ("links", fault.line, fault.kind.number()),
            TextFault::Moves(fault) => ("moves", fault.line, fault.kind.number()),
            TextFault::Transcript(refuted) => {
                let line = refuted.line;
                let clause = refuted.clause;
                return write!(f, "audit line {line} clause {clause}");
            }
        };
        write!(f, "{text} line {line} fault {kind}")
    }
}
