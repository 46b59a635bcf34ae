// What can be wrong with arguments.
use crate::forms::FormNumber;

/// Why arguments are no command. Places are those of the arguments, from 0, the name of the command included; the
/// argument itself is not kept.
#[derive(Clone, Copy)]
pub enum UsageFault {
    /// An argument is not UTF-8. No argument is read then, so it is not known which.
    NotUtf8,
    /// There are no arguments.
    NoCommand,
    /// The first argument is the name of no command. If it is `help` and another argument follows, that is no command, or one too many follow it.
    UnknownCommand,
    /// The argument at this place begins with `-`, and the command has no such option.
    UnknownOption(usize),
    /// The option at this place is given already.
    OptionTwice(usize, &'static str),
    /// The option at this place is neither before the places nor after all files.
    OptionBetween(usize, &'static str),
    /// The option of this name has no number.
    NoOptionNumber(&'static str, FormNumber<'static>),
    /// The argument at this place, without this number of bytes at its front, is not the number that the option of this name needs.
    BadOptionNumber(usize, usize, &'static str, FormNumber<'static>),
    /// The argument at this place is not the name of a file.
    NoFileName(usize, &'static str),
    /// The argument at this place is not the number that is due.
    BadNumber(usize, FormNumber<'static>),
    /// The argument at this place is one too many.
    ExtraWord(usize),
    /// The argument of this name is missing.
    Missing(&'static str),
}
