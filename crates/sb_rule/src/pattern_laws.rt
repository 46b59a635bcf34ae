// Laws of patterns. None of these functions does anything: each contract is a law.
ghost use Rattle.sb_rule.specs.Matching.{LiteralsMatchTheSame, StarMatchesAll, MatchingFoldsTheString, MatchingFoldsTheLiterals};
ghost use Rattle.sb_rule.specs.PatternReading.{FaultsAreLeftmost, FaultlessTextsAreRead, TextsComeBack, PatternsAreRead, ReadingGivesPatterns};

/// The text of what was read is the text that was read, what was read is a pattern, and cells are a pattern exactly if
/// their text is read as they are.
pub fn texts_and_patterns()
    ensures texts { TextsComeBack }
    ensures read { ReadingGivesPatterns }
    ensures patterns { PatternsAreRead }
{}

/// A text is a pattern exactly if it has at most 256 units and no `*` before `*` or `?`. The fault of any other text is too
/// many units, and else the leftmost such `*`: a fault is reported at a place exactly if such a `*` is there and none
/// before it.
pub fn faults_are_leftmost()
    ensures fault { FaultsAreLeftmost }
    ensures none { FaultlessTextsAreRead }
{}

/// A pattern without `*` and `?` matches exactly the strings that are the same as its literals.
pub fn literals_match_the_same()
    ensures { LiteralsMatchTheSame }
{}

/// `*` alone matches every string.
pub fn star_matches_all()
    ensures { StarMatchesAll }
{}

/// Folding the string or the literals changes nothing.
pub fn matching_folds()
    ensures string { MatchingFoldsTheString }
    ensures literals { MatchingFoldsTheLiterals }
{}
