// How large policies and patterns may be.

/// The most policies.
pub const MAX_POLICIES: usize = 8;

/// The most rules of a policy.
pub const MAX_RULES: usize = 256;

/// The most conditions of a rule.
pub const MAX_CONDITIONS: usize = 8;

/// The most numbers of a test.
pub const MAX_NUMBERS: usize = 16;

/// The most units of a pattern's text, and of a string with which a policy compares.
pub const MAX_UNITS: usize = 256;
