// Laws of notes. None of these functions does anything: each contract is a law.
ghost use Rattle.sb_message.specs.NoteLaws.{NotesAreClean, NotesAreTrue};

/// A pattern that is noted to match no name matches none, and one that is noted to begin with `\??\` matches a name with any units in place of the two
/// question marks exactly if it matches it with them.
pub fn notes_are_true()
    ensures { NotesAreTrue }
{}

/// What is written of the notes of a policy file is UTF-8 without control characters, except LF and tab, and without format characters, whatever the bytes
/// of its name and of its text are.
pub fn notes_are_clean()
    ensures { NotesAreClean }
{}
