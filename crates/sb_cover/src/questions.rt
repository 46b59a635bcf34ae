// What is asked of calls.

use sb_rule::Rules;

/// A list of rules. Asked is which are the first of them that hold of a call.
pub struct Question {
    /// The rules.
    pub rules: Rules,
    /// How many of the rules that hold are asked for: 1 for the one that decides.
    pub depth: usize,
    /// Whether they are asked of the call with its access cut to the bits that only read.
    pub is_cut: bool,
}

impl Drop for Question {
    fn drop(self) {
        let Question {
            rules: _,
            depth: _,
            is_cut: _,
        } = self;
    }
}
