// Reading files of moves.
ghost use Rattle.std.specs.Prelude.{◌≡◌, ◌+◌, ◌<◌, ◌≤◌, ◌^◌, [], length, true, IfOk};
ghost use Rattle.std.specs.List.{list_all};
ghost use Rattle.sb_dup.specs.Lines.{is_between, most_moves};
ghost use Rattle.sb_dup.specs.MoveTexts.{grammar, reading};
ghost use Rattle.sb_dup.specs.declared.faults.MoveKind.TheVariants.{UnknownWord};
ghost use Rattle.sb_base.specs.Refusals.{Gives};
ghost use Rattle.sb_text.specs.Tokens.{by_tokens};
ghost use Rattle.sb_text.specs.declared.refusals.WordFault.TheVariants.{NoVersion};

use crate::faults::{LineRefused, MoveKind, MovesRefused};
use crate::lines::line_of;
use crate::moves::Moves;
use sb_statements::SoundScript;
use sb_text::{ByteLine, ByteLines, Layout, TextGrammar, WordFault, read_by, version_in_words};
use std::alloc::Global;

// Files of moves between this number of targets.
#[derive(Drop)]
struct MoveGrammar {
    alloc: Global,
    targets: u32,
}

impl<'b> TextGrammar<ByteLines<'b>> for MoveGrammar {
    type Draft = Moves;

    type Kind = MoveKind;

    ghost grammar = { λ files. grammar files.targets };

    fn layout(&self) -> Layout
        ensures { result ≡ by_tokens }
    {
        Layout::Text
    }

    fn version(&self, line: &ByteLine<'b>) -> Result<u32, LineRefused> {
        version_in_words(
            MoveKind::UnknownWord(WordFault::NoVersion),
            b"sandbox-moves",
            &line.words(),
        )
    }

    fn no_version(&self) -> MoveKind
        ensures { result ≡ UnknownWord NoVersion }
    {
        MoveKind::UnknownWord(WordFault::NoVersion)
    }

    fn start(&self) -> Moves
        ensures { result ≡ [] }
    {
        Moves::empty(self.alloc)
    }

    fn add(
        &self,
        _version: u32,
        moves: &mut Moves,
        line: &ByteLine<'b>,
    ) -> Result<(), LineRefused> {
        line_of(self.targets, moves, &line.words())
    }
}

/// The moves that a file lists, for the targets of a script, or its first fault. The file has fewer than 2^32 - 1 bytes, which need not
/// be UTF-8 in blank and comment lines. There are at most 4,096 moves, and both targets of each are there.
///
/// # Errors
/// `Fault` exactly if the file has a fault: that of the first such line, with its line and column. On a line the lowest kind comes
/// first, and of one kind the leftmost word: a word that is not due, missing, extra, quoted or not UTF-8; a target that is not
/// there; a word that is no number, or an access of 2^32 or more; and at its first word a line that is one move too many.
/// `NoMemory` if there was none for the moves.
#[tactic(auto, using(crate::proofs::Bounds::read_between, crate::proofs::Bounds::read_few))]
pub fn read_moves(alloc: Global, text: &[u8], script: &SoundScript) -> Result<Moves, MovesRefused>
    requires short { length text.now + 1 < 2 ^ 32 }
    ensures exactly { Gives (reading (length script.now.targets) text.now) result }
    ensures between { IfOk result (λ moves. list_all (is_between (length script.now.targets)) moves ≡ true) }
    ensures few { IfOk result (λ moves. length moves ≤ most_moves) }
{
    let targets = script.target_count();
    read_by(&MoveGrammar { alloc, targets }, ByteLines::new(text))
}
