// Laws of what is shown. None of these functions does anything: each contract is a law.
ghost use Rattle.sb_glyphs.specs.Laws.{CaretsAreUnderTheirPlace, CaretsFollowTabs, ExcerptsHaveTheirPlace, ShownTextsAreClean};

/// What is shown of a line begins with what is shown before a place of it.
pub fn excerpts_have_their_place()
    ensures { ExcerptsHaveTheirPlace }
{}

/// If no tab is shown before a place of a line, its caret is as far to the right as what is shown before it is wide in a terminal.
pub fn carets_are_under_their_place()
    ensures { CaretsAreUnderTheirPlace }
{}

/// The caret of a place of a line is in the column of a terminal in which the place is shown, wherever the terminal has its tab stops.
pub fn carets_follow_tabs()
    ensures { CaretsFollowTabs }
{}

/// What is shown of bytes is UTF-8 without control characters, except LF and tab, and without format characters.
pub fn shown_texts_are_clean()
    ensures { ShownTextsAreClean }
{}
