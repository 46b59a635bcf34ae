// What is asked of rules and of the arguments of a call.

/// A number that arguments have.
#[derive(Clone, Copy)]
pub enum Feature {
    /// The number of a parameter.
    Number { param: u32 },
    /// Four units of the string of a parameter, after those that are skipped.
    Front { param: u32, skip: usize },
}

/// A question of rules: whether one can hold of arguments whose feature lies in a range, or whose string has no unit of a
/// bucket. A bucket is one of 64.
pub enum Question {
    /// The feature lies from `first` to `last`, both included.
    Within {
        feature: Feature,
        first: u64,
        last: u64,
    },
    /// The string of the parameter has no unit in the bucket.
    Without {
        param: u32,
        bucket: u64,
    },
}
