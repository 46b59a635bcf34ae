// Opcodes: what rules are compiled to. A code is one list of words, seen as the list of opcodes whose packing the words
// are. Code that was verified for a call has opcodes in groups, each with parameters that the call has. A code judges a
// call by its rules, each a list of groups of opcodes, over its words and with no memory.
// Opcodes and the walk over them are modelled on Chromium's Windows sandbox (policy_engine_opcodes.h,
// policy_engine_processor.cc).
#![tactic(auto)]

mod checks;
mod codes;
mod effects;
mod faults;
mod fragments;
mod laws;
mod opcodes;
mod options;
mod records;
mod rules;
mod states;
mod verified;
mod walks;

pub use codes::Code;
pub use faults::{CodeFault, WordsFault};
pub use laws::{faultless_codes_are_whole, fragments_stand_where_they_fit, packing_comes_back};
pub use opcodes::{Look, OpKind, Opcode, Seek};
pub use options::Options;
pub use records::Records;
pub use rules::RuleCodes;
pub use verified::{Verified, VerifyRefused, WordList, WordsRefused, verify, verify_words};
pub use walks::eval;
