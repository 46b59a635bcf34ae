// Laws of moves. None of these functions does anything: each contract is a law.
ghost use Rattle.sb_dup.specs.MoveLaws.{MovesAreBetween, MovesAreFew, WrittenMovesAreRead};
ghost use Rattle.sb_dup.specs.PassLaws.{AllowedAreGranted, ChainsNeverWiden, GrantsAreAllowed, OnlyPipesAreNotOpened, PipesAreNotOpened, RefusedMovesChangeNothing};

use sb_text::{decimals_are_read, plain_lines_are_read};

/// A handle is given exactly by a move whose giver holds the handle with the access asked for, if there is a call that opens its object
/// and the policies of both targets allow this call.
#[tactic(auto, using(crate::proofs::PassLaws::grants_are_allowed, crate::proofs::PassLaws::allowed_are_granted))]
pub fn moves_are_granted_if_allowed()
    ensures granted { GrantsAreAllowed }
    ensures allowed { AllowedAreGranted }
{}

/// A move that gives no handle changes nothing.
#[tactic(auto, using(crate::proofs::PassLaws::refused_moves_change_nothing))]
pub fn refused_moves_change_nothing()
    ensures { RefusedMovesChangeNothing }
{}

/// The answer to a move is that no call opens the object exactly if the giver holds a pipe with the access asked for: everything else that
/// the handles of a kernel are open on has its name, also after moves.
#[tactic(auto, using(crate::proofs::PipeLaws::pipes_are_not_opened, crate::proofs::PipeLaws::only_pipes_are_not_opened))]
pub fn pipes_alone_are_not_opened()
    ensures pipes { PipesAreNotOpened }
    ensures only { OnlyPipesAreNotOpened }
{}

/// However many moves are made, the handles that were there stay as they were, and each further one has the object and the sharing of
/// one of them and no bit of access that this one lacks.
#[tactic(auto, using(crate::proofs::PassLaws::chains_never_widen))]
pub fn chains_never_widen()
    ensures { ChainsNeverWiden }
{}

/// Both targets of each move that is read are there, and there are at most 4,096 moves.
#[tactic(auto, using(crate::proofs::Bounds::moves_are_between, crate::proofs::Bounds::moves_are_few))]
pub fn read_moves_are_bounded()
    ensures between { MovesAreBetween }
    ensures few { MovesAreFew }
{}

/// Moves between targets that are there, at most 4,096 of them, are read back from what is written of them.
pub fn written_moves_are_read()
    ensures { WrittenMovesAreRead }
{
    plain_lines_are_read();
    decimals_are_read();
}
