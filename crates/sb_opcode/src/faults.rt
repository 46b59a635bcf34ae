// What is wrong with a code, or with words that are to be one.

/// Why a code is not one for a call. The first of these by their order is told, and the lowest place of it. Places count
/// opcodes from 0.
#[derive(Clone, Copy)]
pub enum CodeFault {
    /// There is no opcode, or the last is no action.
    NoAction,
    /// The opcode at this place is an action before which a group has no end; or it has NEGATE and no CLEAR; or its OR
    /// or its parameter differs from that of the opcode before it in its group; or it is a text opcode with OR, an
    /// action with an option, or no text opcode and has FOLD or EXACT.
    OpenGroup(u32),
    /// The opcode at this place looks at what is no parameter of the call, or it is one of numbers and looks at a string,
    /// or it is one of strings and looks at a number.
    BadParam(u32),
}

/// Why words are no code for a call.
#[derive(Clone, Copy)]
pub enum WordsFault {
    /// The words are the packing of no list of opcodes.
    NotPacked,
    /// The words are the packing of opcodes that have this fault.
    Code(CodeFault),
}
