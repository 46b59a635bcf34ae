// The stages of actors, each named by the next step, with the numbers that belong to it. The words of a copy, of a block and of a reply
// are beside the stage in the actor, so that no step moves them.

/// The stage of a worker at its channel.
#[derive(Clone, Copy)]
pub(crate) enum WorkerStage {
    /// It looks at the state.
    Look,
    /// The channel is ready, and it loads the count of parameters.
    Count,
    /// It loads the end of a block that has this many parameters.
    End { count: u64 },
    /// It loads the next word into its copy, which ends here.
    Copy { count: u64, end: u64 },
    /// It has the copy, and takes the turn.
    Take,
    /// It has the turn, and the book answers.
    Answer,
    /// It has the reply, and gives the turn back.
    Give,
    /// It stores word `at` of the reply.
    Reply { at: u32 },
    /// It acknowledges the channel.
    Ack,
}

/// The stage of a thread in its statement.
#[derive(Clone, Copy)]
pub(crate) enum ThreadStage {
    /// It tries to take the channel, after this many rounds. In this round all channels so far were abandoned, or not.
    Try {
        channel: u32,
        rounds: u32,
        all_abandoned: bool,
    },
    /// It stores word `at` of the block.
    Fill {
        channel: u32,
        at: u32,
    },
    /// It hands the block over.
    Send {
        channel: u32,
    },
    /// It waits for the reply, after this many loads.
    Wait {
        channel: u32,
        loads: u32,
    },
    /// It loads word `at` of the reply.
    Fetch {
        channel: u32,
        at: u32,
    },
    /// It has the reply, and frees the channel.
    Free {
        channel: u32,
    },
    /// It waits no more, and abandons the channel.
    Abandon {
        channel: u32,
    },
    /// It makes a store, exchange, load or wait statement, after this many loads of at most `most`.
    Stray {
        loads: u32,
        most: u32,
    },
    /// Each statement has ended.
    Over,
}
