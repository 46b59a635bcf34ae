// The units that have a meaning in names, patterns and quoted strings.

/// `"`, around a quoted string.
pub const QUOTE: u16 = 34;

/// `*`, in a pattern any run of units.
pub const STAR: u16 = 42;

/// `/`, in a pattern before a question mark that is itself.
pub const SLASH: u16 = 47;

/// `?`, in a pattern any one unit.
pub const QUESTION: u16 = 63;

/// `\`, before each component of a name.
pub const BACKSLASH: u16 = 92;
