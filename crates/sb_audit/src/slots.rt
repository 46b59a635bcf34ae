// The reply of an entry on a clean channel.
use sb_transcript::ShownReply;

/// The reply of an entry on a clean channel, and the channel.
#[derive(Drop)]
pub struct OwnReply {
    /// The number of the channel, from 0.
    pub channel: u32,
    /// What was replied.
    pub reply: ShownReply,
}
