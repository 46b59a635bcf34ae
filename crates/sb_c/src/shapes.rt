// The structs that cross to C. Each is `sb_` and its name there, as `sb_step`. A field `room` is 0, and is there so that the struct may grow.

/// An argument: a number, or the units from `start` on of which there are `length`.
#[repr(C)]
#[derive(Clone, Copy)]
pub struct Argument {
    /// 0 if it is a number, and anything else if it is a string.
    pub is_text: u32,
    /// Where the string begins in the array of units that goes with the arguments.
    pub start: u32,
    /// How many units the string has.
    pub length: u32,
    /// 0.
    pub room: u32,
    /// The number, also a handle.
    pub number: u64,
}

/// The one next step.
#[repr(C)]
#[derive(Clone, Copy)]
pub struct Step {
    /// 0 nothing, 1 load, 2 store, 3 exchange, 4 take the turn, 5 answer, 6 give the turn back.
    pub kind: u32,
    /// The channel, from 0.
    pub channel: u32,
    /// The word of the channel, from 0 (its state) to 64.
    pub word: u32,
    /// 0.
    pub room: u32,
    /// The value that an exchange expects.
    pub expected: u64,
    /// The value that a store or an exchange stores.
    pub value: u64,
}

/// The first fault of a copy.
#[repr(C)]
#[derive(Clone, Copy)]
pub struct CopyFault {
    /// Its number, from 1 to 10.
    pub number: u32,
    /// How many values it has, at most 2.
    pub count: u32,
    /// Its values.
    pub values: [u64; 2],
}

/// How a call ended.
#[repr(C)]
#[derive(Clone, Copy)]
pub struct CallEnding {
    /// 0 it goes on or none began, 1 reply, 2 a reply to another mark, 3 no channel, 4 the channel was lost, 5 timed out.
    pub kind: u32,
    /// The channel, from 0.
    pub channel: u32,
    /// The mark of the reply, or the state of the channel that was lost.
    pub found: u64,
    /// Of a reply: 0 performed, 1 refused, 2 denied, 3 faked.
    pub outcome: u64,
    /// Of a reply: a Windows status code.
    pub status: u64,
    /// Of a reply: the handle that was granted, or 0.
    pub handle: u64,
    /// Of a reply: how many extended words it has, at most 7.
    pub count: u64,
    /// Of a reply: its extended words, and then zeros.
    pub words: [u64; 7],
}

/// What a policy says of a call.
#[repr(C)]
#[derive(Clone, Copy)]
pub struct CallVerdict {
    /// 1 if a rule decides, and 0 if none holds.
    pub has_rule: u32,
    /// The line of the rule in the policy text, from 1.
    pub line: u32,
    /// 0 allow, 1 deny, 2 alarm, 3 fake, 4 readonly.
    pub action: u32,
    /// 0.
    pub room: u32,
}

/// The first fault of a policy text.
#[repr(C)]
#[derive(Clone, Copy)]
pub struct TextFault {
    /// The line, from 1.
    pub line: u32,
    /// The column, from 1; 0 if no place in a line is meant.
    pub column: u32,
    /// The number of the fault, from 1 to 13, as the program prints it.
    pub number: u64,
}

/// What is decided of a copy.
#[repr(C)]
#[derive(Clone, Copy)]
pub struct CopyDecision {
    /// 0 performed, 1 refused, 2 denied, 3 faked.
    pub outcome: u32,
    /// The number of the call, 0 if the copy is refused.
    pub call: u32,
    /// 1 if a rule decided, and 0 if none did.
    pub has_rule: u32,
    /// The line of the rule in the policy text, from 1.
    pub line: u32,
    /// 0 allow, 1 deny, 2 alarm, 3 fake, 4 readonly.
    pub action: u32,
    /// The number of the fault of a copy that is refused, from 1 to 10, and 0 of any other.
    pub fault: u32,
    /// How many arguments are granted.
    pub arguments: u64,
}

/// What the host answers to a call that is performed.
#[repr(C)]
#[derive(Clone, Copy)]
pub struct HostAnswer {
    /// A Windows status code.
    pub status: u32,
    /// How many of the words are told, at most 7.
    pub count: u32,
    /// The handle that the target is granted, or 0.
    pub handle: u64,
    /// The extended words.
    pub words: [u64; 7],
}
