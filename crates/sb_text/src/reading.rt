// Reading a text line by line by a grammar, with the first fault, its line and its column.
ghost use Rattle.std.specs.Prelude.{◌≡◌, ◌∷◌, ◌+◌, ◌<◌, ◌^◌, [], List, length, IfSome, MatchOption};
ghost use Rattle.sb_text.specs.Lines.{NumberedLine};
ghost use Rattle.sb_text.specs.Readings.{Grammar, read_lines, read_by, read_text, refused_on, without_column};
ghost use Rattle.sb_base.specs.Refusals.{Gives};
ghost use Rattle.sb_text.specs.Steps.{Becomes};
ghost use Rattle.sb_base.specs.declared.refusals.Refused.TheVariants.{Fault};

use crate::byte_lines::{ByteLine, ByteLines};
use crate::columns::{Layout, column_at};
use crate::lines::{Line, Lines};
use crate::refusals::{LineFault, TokenFault};
use crate::utf8::text_of;
use sb_base::Refused;

/// The lines of a text that are neither blank nor comments, one after another.
pub trait TextLines: Drop {
    /// A line.
    type Line: Drop;

    ghost left: { Self → List NumberedLine };

    ghost numbered: { Self.Line → NumberedLine };

    /// The next line that is neither blank nor a comment.
    fn next_line(&mut self) -> Option<Self::Line>
        ensures line { MatchOption result ((left self.old ≡ []) × (left self.new ≡ [])) (λ line. left self.old ≡ numbered line ∷ left self.new) }
        ensures short { IfSome result (λ line. length (numbered line).text + 1 < 2 ^ 32) };

    /// The number of a line in its text, from 1.
    fn number_of(line: &Self::Line) -> u32
        ensures { result ≡ (numbered line.now).number };

    /// The bytes of a line.
    fn bytes_of<'b>(line: &'b Self::Line) -> &'b [u8]
        ensures { result.now ≡ (numbered line.now).text };
}

impl<'a> TextLines for Lines<'a> {
    type Line = Line<'a>;

    ghost left = { λ lines. lines };

    ghost numbered = { λ line. record { number = line.number; text = line.text.now } };

    fn next_line(&mut self) -> Option<Line<'a>> {
        Lines::next_line(self)
    }

    fn number_of(line: &Line<'a>) -> u32 {
        line.number
    }

    fn bytes_of<'b>(line: &'b Line<'a>) -> &'b [u8] {
        line.text.as_bytes()
    }
}

impl<'a> TextLines for ByteLines<'a> {
    type Line = ByteLine<'a>;

    ghost left = { λ lines. lines };

    ghost numbered = { λ line. record { number = line.number; text = line.text.now } };

    fn next_line(&mut self) -> Option<ByteLine<'a>> {
        ByteLines::next_line(self)
    }

    fn number_of(line: &ByteLine<'a>) -> u32 {
        line.number
    }

    fn bytes_of<'b>(line: &'b ByteLine<'a>) -> &'b [u8] {
        line.text
    }
}

/// A grammar of texts whose lines are cut as `L`. It holds what its lines are read with.
pub trait TextGrammar<L: TextLines> {
    /// What the lines are read into.
    type Draft: Drop;

    /// What can be wrong with a line.
    type Kind: Drop;

    ghost grammar: { Self → Grammar Self.Draft Self.Kind };

    /// What the lines of its texts are made of.
    fn layout(&self) -> Layout
        ensures { result ≡ (grammar self.now).layout };

    /// The version that a first line names.
    ///
    /// # Errors
    /// `Fault` exactly if it names none, at the first token that departs.
    fn version(&self, line: &L::Line) -> Result<u32, Refused<TokenFault<Self::Kind>>>
        ensures { Gives ((grammar self.now).version (L.numbered line.now).text) result };

    /// What is wrong if there is no first line.
    fn no_version(&self) -> Self::Kind
        ensures { result ≡ (grammar self.now).no_version };

    /// What is read before any line after the first.
    fn start(&self) -> Self::Draft
        ensures { result ≡ (grammar self.now).start };

    /// What another line of a text of this version, of fewer than 2^32 - 1 bytes, adds to what was read so far. After an error the draft is
    /// unspecified.
    ///
    /// # Errors
    /// `Fault` exactly if something is wrong with the line, the first such from the left, at its place. `NoMemory` if out of
    /// memory.
    fn add(
        &self,
        version: u32,
        draft: &mut Self::Draft,
        line: &L::Line,
    ) -> Result<(), Refused<TokenFault<Self::Kind>>>
        requires { length (L.numbered line.now).text + 1 < 2 ^ 32 }
        ensures { Becomes ((grammar self.now).add version draft.old (L.numbered line.now)) result draft.new };
}

/// The refusal of a line as that of its text, with the number of the line and the column of the fault.
pub fn on_line<K: Drop>(
    layout: Layout,
    number: u32,
    text: &[u8],
    refused: Refused<TokenFault<K>>,
) -> Refused<LineFault<K>>
    requires { length text.now + 1 < 2 ^ 32 }
    ensures { result ≡ refused_on layout number text.now refused }
{
    match refused {
        Refused::Fault(TokenFault { place, kind }) => Refused::Fault(LineFault {
            line: number,
            column: column_at(layout, text, place),
            kind,
        }),
        Refused::NoMemory => Refused::NoMemory,
    }
}

// The refusal of a line of these lines by this grammar.
fn refuse<L: TextLines, G: TextGrammar<L>>(
    grammar: &G,
    line: &L::Line,
    refused: Refused<TokenFault<G::Kind>>,
) -> Refused<LineFault<G::Kind>>
    requires { length (L.numbered line.now).text + 1 < 2 ^ 32 }
    ensures { result ≡ refused_on (G.grammar grammar.now).layout (L.numbered line.now).number (L.numbered line.now).text refused }
{
    on_line(
        grammar.layout(),
        L::number_of(line),
        L::bytes_of(line),
        refused,
    )
}

// A fault that has no place in its line.
fn without_column<K: Drop>(line: u32, kind: K) -> Refused<LineFault<K>>
    ensures { result ≡ Fault (without_column line kind) }
{
    Refused::Fault(LineFault {
        line,
        column: 0,
        kind,
    })
}

// What the lines below the first add.
#[tactic(auto, using(crate::proofs::ReadingLaws::no_line, crate::proofs::ReadingLaws::added_in_turn))]
fn read_below<L: TextLines, G: TextGrammar<L>>(
    grammar: &G,
    version: u32,
    lines: L,
) -> Result<G::Draft, Refused<LineFault<G::Kind>>>
    ensures { Gives (read_lines (G.grammar grammar.now) version (G.grammar grammar.now).start (L.left lines)) result }
{
    let mut lines = lines;
    let mut draft = grammar.start();
    while let Some(line) = lines.next_line() {
        match grammar.add(version, &mut draft, &line) {
            Ok(()) => {}
            Err(refused) => return Err(refuse::<L, G>(grammar, &line, refused)),
        }
    }
    Ok(draft)
}

/// What the lines of a text say by a grammar, or the first fault.
///
/// # Errors
/// `Fault` exactly if the text has a fault: the first one, by lines from the top and in each from the left, with its line and column.
/// A text of blank and comment lines alone lacks its version, on line 1 and in no column. `NoMemory` if out of memory.
pub fn read_by<L: TextLines, G: TextGrammar<L>>(
    grammar: &G,
    lines: L,
) -> Result<G::Draft, Refused<LineFault<G::Kind>>>
    ensures { Gives (read_by (G.grammar grammar.now) (L.left lines)) result }
{
    let mut lines = lines;
    let Some(first) = lines.next_line() else {
        return Err(without_column(1, grammar.no_version()));
    };
    match grammar.version(&first) {
        Ok(version) => read_below(grammar, version, lines),
        Err(refused) => Err(refuse::<L, G>(grammar, &first, refused)),
    }
}

/// The same of a text that has to be UTF-8, of fewer than 2^32 - 1 bytes.
///
/// # Errors
/// As `read_by`, but if the text is not UTF-8 it has the fault `not_utf8` before all others, right after its longest
/// front that is.
pub fn read_text<'a, G: TextGrammar<Lines<'a>>>(
    grammar: &G,
    not_utf8: G::Kind,
    text: &'a [u8],
) -> Result<G::Draft, Refused<LineFault<G::Kind>>>
    requires { length text.now + 1 < 2 ^ 32 }
    ensures { Gives (read_text not_utf8 (G.grammar grammar.now) text.now) result }
{
    match text_of(text) {
        Ok(text) => read_by(grammar, Lines::new(text)),
        Err(fault) => Err(Refused::Fault(LineFault {
            line: fault.line,
            column: fault.column,
            kind: not_utf8,
        })),
    }
}
