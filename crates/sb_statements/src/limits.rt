// How large a script may be.

/// The most objects that there are at the start.
pub const MAX_START_LINES: usize = 4096;

/// The most targets of a script.
pub const MAX_TARGETS: usize = 8;

/// The most channels of a target.
pub const MAX_CHANNELS: u32 = 8;

/// The most threads of a target.
pub const MAX_THREADS: usize = 4;

/// The most statements of a thread.
pub const MAX_STATEMENTS: usize = 4096;

/// The most loads of a wait statement, and the greatest patience of a script.
pub const MAX_PATIENCE: u32 = 1_000_000;

/// The last place of a word in its channel: the state is at 0, and the 64 words of a block follow.
pub const LAST_PLACE: u32 = 64;
