// What commands do.

/// What a command does that runs without threads.
#[derive(Clone, Copy)]
pub enum PlainWork {
    /// Policies are read, and printed.
    Check,
    /// A script is run under policies, by a schedule if one is named, and its transcript is printed.
    Replay,
    /// The calls of a script are answered under policies, with the links of a file in their names, and the answers are printed.
    Linked,
    /// A script is run under policies, then handles are moved between its targets, and its transcript and the moves are printed.
    Dup,
    /// A script is run without the calls that the policies deny, by a schedule if one is named, and these and the transcript are printed.
    Local,
    /// A transcript is checked against what the broker promises of a script under policies.
    Audit,
}

/// What a command does that runs on threads.
#[derive(Clone, Copy)]
pub enum ThreadedWork {
    /// A script is run under policies by 1 to 8 workers, and its transcript is printed.
    Run,
    /// A script is made from a seed, with 1 to 8 targets and 1 to 4,096 calls a thread, it is run, and its totals are printed.
    Make,
}

/// What a command does.
#[derive(Clone, Copy)]
pub enum Work {
    /// Without threads.
    Plain(PlainWork),
    /// On threads.
    Threaded(ThreadedWork),
}
