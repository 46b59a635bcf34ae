// Laws of the definitions.
ghost use Rattle.sb_text.specs.ReadingLaws.{FirstFaultsStay, LinesBeforeAreRead, SkippedLinesCountAlone};
ghost use Rattle.sb_text.specs.LineLaws.{WrittenRawLinesAreRead, RawLinesAreLines, WrittenLinesAreRead, LinesHoldNoLf, RawLinesJoin, LinesAreCounted, LinesAppend, SayingLinesAppend, NumbersAreWithin, OneCrIsDropped, OtherEndsAreKept};
ghost use Rattle.sb_text.specs.Utf8Laws.{NotUtf8PlaceTells, PlacesAreCounted};
ghost use Rattle.sb_text.specs.TokenLaws.{TokenIsReadBeforeBlank, BrokenTokensAreBad, WrittenTokensAreRead, TokensAreCut, TokensAreFound, BlanksAreNothing, PlainLinesHaveWords, SayingLinesHaveTokens, FirstTokenSkips, QuotedTokensAreText};
ghost use Rattle.sb_text.specs.ColumnLaws.{ColumnsAreCounted, ColumnsAreWithin};
ghost use Rattle.sb_text.specs.Strings.{StringsComeBack, QuotedStringsAreText};
ghost use Rattle.sb_text.specs.NumberLaws.{DecimalsAreRead, HexadecimalsAreRead};
ghost use Rattle.sb_text.specs.PlainLines.{PlainLinesAreUtf8, PlainLinesAreRead, PlainTokensAreRead, PlainWordsAreRead};

/// Lines written one after another, each with an LF, are read back.
pub fn written_lines_are_read()
    ensures { WrittenLinesAreRead }
{}

/// The same of lines as they are between LFs.
pub fn written_raw_lines_are_read()
    ensures { WrittenRawLinesAreRead }
{}

/// The lines as they are between LFs, without their numbers and ends, are the lines.
pub fn raw_lines_are_lines()
    ensures { RawLinesAreLines }
{}

/// No line holds an LF.
pub fn lines_hold_no_lf()
    ensures { LinesHoldNoLf }
{}

/// The lines as they were between LFs give the text back.
pub fn raw_lines_join()
    ensures { RawLinesJoin }
{}

/// There is a line for each LF, and one more if bytes follow the last LF.
pub fn lines_are_counted()
    ensures { LinesAreCounted }
{}

/// A text cut after an LF: its lines are those of its front, and then those of the rest.
pub fn lines_append()
    ensures { LinesAppend }
{}

/// The same of the lines that are neither blank nor comments, whose numbers go on in the rest.
pub fn saying_lines_append()
    ensures { SayingLinesAppend }
{}

/// The number of a line is from 1 to the number of lines.
pub fn numbers_are_within()
    ensures { NumbersAreWithin }
{}

/// A blank at either end of a line changes no token.
pub fn blanks_are_nothing()
    ensures { BlanksAreNothing }
{}

/// A token and a blank: the token is found, and what follows it is read for itself.
pub fn token_is_read_before_blank()
    ensures { TokenIsReadBeforeBlank }
{}

/// These break the rules: a word that holds `"`, and a quoted token that is not closed, that holds
/// a character below 32, or that no blank follows.
pub fn broken_tokens_are_bad()
    ensures { BrokenTokensAreBad }
{}

/// Tokens that are written on a line, with one space between each two, are read back, each where it was written.
pub fn written_tokens_are_read()
    ensures { WrittenTokensAreRead }
{}

/// Each token of a line can be written, except that the last may be bytes that break the rules.
pub fn tokens_are_found()
    ensures { TokensAreFound }
{}

/// Each line is cut into its tokens, and into its words: blanks and a token, after which there is a blank or nothing, and so on. The place of a
/// token is where it begins, and that of the end where the last token ends.
#[tactic(auto, using(crate::proofs::TokenCuts::tokens_cut))]
pub fn tokens_are_cut()
    ensures { TokensAreCut }
{}

/// In a text that is UTF-8, what each quoted token holds is UTF-8, with no `"` and no character below 32.
pub fn quoted_tokens_are_text()
    ensures { QuotedTokensAreText }
{}

/// A line that is not skipped has a token.
pub fn saying_lines_have_tokens()
    ensures { SayingLinesHaveTokens }
{}

/// A line without tokens is skipped, and one with a token, also one that breaks the rules, exactly if its first byte that
/// is no blank is `#`.
pub fn first_token_skips()
    ensures { FirstTokenSkips }
{}

/// A line without `"` has its words as tokens.
pub fn plain_lines_have_words()
    ensures { PlainLinesHaveWords }
{}

/// Lines of plain tokens, the first of which is a word, with one space between each two: their text is UTF-8 and has these lines,
/// and each line has these tokens. A line of plain words has these words.
#[tactic(auto, using(crate::proofs::PlainLines::lines_utf8, crate::proofs::PlainLines::lines_back, crate::proofs::PlainLines::tokens_back, crate::proofs::PlainLines::words_back))]
pub fn plain_lines_are_read()
    ensures utf8 { PlainLinesAreUtf8 }
    ensures lines { PlainLinesAreRead }
    ensures tokens { PlainTokensAreRead }
    ensures words { PlainWordsAreRead }
{}

/// The decimal digits of a number are read as that number.
pub fn decimals_are_read()
    ensures { DecimalsAreRead }
{}

/// `0x` and the lower-case hexadecimal digits of a number are read as that number.
pub fn hexadecimals_are_read()
    ensures { HexadecimalsAreRead }
{}

/// A CR at the end of a line is dropped, and only it.
pub fn one_cr_is_dropped()
    ensures { OneCrIsDropped }
{}

/// A line that ends with another byte than CR is kept.
pub fn other_ends_are_kept()
    ensures { OtherEndsAreKept }
{}

/// There is no place where bytes are not UTF-8 if all of them are; else it is right after their longest front that is.
pub fn not_utf8_place_tells()
    ensures { NotUtf8PlaceTells }
{}

/// The line of the place after bytes is one more than the number of LF in them, and its column one more than the number of characters
/// after the last LF.
pub fn places_are_counted()
    ensures { PlacesAreCounted }
{}

/// The column of the place between two parts of a line is one more than the number of characters of the first.
#[tactic(auto, using(crate::proofs::ColumnLaws::columns_counted))]
pub fn columns_are_counted()
    ensures { ColumnsAreCounted }
{}

/// A column is from 1 to one more than the number of bytes of the line.
pub fn columns_are_within()
    ensures { ColumnsAreWithin }
{}

/// A fault on one of the first lines of a text, some of which have tokens, is that of each text that begins with these
/// lines: a fault depends on its line and on those before it alone.
#[tactic(auto, using(crate::proofs::ReadingLaws::first_faults_stay))]
pub fn first_faults_stay<D, K>()
    ensures { FirstFaultsStay D K }
{}

/// A well-formed string of text units is read back from what is written of it between quotes, and what is between quotes in
/// a text that is UTF-8 means such a string.
pub fn quoted_strings_are_read()
    ensures written { StringsComeBack }
    ensures read { QuotedStringsAreText }
{}

/// The lines before the one with the fault, if some of them have tokens, are read.
#[tactic(auto, using(crate::proofs::ReadingLaws::lines_before))]
pub fn lines_before_are_read<D, K>()
    ensures { LinesBeforeAreRead D K }
{}

/// A line that is skipped may be put in anywhere below the first with tokens, and changes nothing but numbers of lines.
#[tactic(auto, using(crate::proofs::ReadingLaws::skipped_lines))]
pub fn skipped_lines_count_alone<D, K>()
    ensures { SkippedLinesCountAlone D K }
{}
