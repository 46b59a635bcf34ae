// Rules that may still hold of a call, while its parameters are read one after another.

use sb_base::Items;

/// The numbers of conditions.
pub(crate) type CondNumbers = Items<u32>;

/// A rule that may still hold: all its conditions on the parameters that were read do.
pub(crate) struct OpenRule {
    /// The place of the rule in its list, from 0.
    pub place: usize,
    /// The numbers of its conditions on the parameter that is read.
    pub here: CondNumbers,
    /// The numbers of its conditions on the parameters after it.
    pub later: CondNumbers,
}

impl Drop for OpenRule {
    fn drop(self) {
        let OpenRule {
            place: _,
            here: _,
            later: _,
        } = self;
    }
}

/// The rules of one list that may still hold, in order. Asked is which are the first of them that hold.
pub(crate) struct OpenQuestion {
    /// How many of the rules that hold are asked for.
    pub depth: usize,
    /// The rules.
    pub rules: Items<OpenRule>,
}

impl Drop for OpenQuestion {
    fn drop(self) {
        let OpenQuestion { depth: _, rules: _ } = self;
    }
}
