// Laws of maps from names and of trees of names. None of these functions changes anything: each contract is a law.
ghost use Rattle.sb_names.specs.Numbers.{OutsKeepNumbers, PutsKeepNumbers, RenamesKeepNumbers};
ghost use Rattle.sb_names.specs.Laws.{NamesFold, OutIsOut, PutsAreFound, PutsKeepParents, PutsKeepRows, PutsKeepTrees, RenamesAddNothing, RenamesAreFound, RenamesKeepParents, RenamesKeepTrees, RenamesLeaveNothing};

use sb_base::{names_are_paths, paths_are_names};

/// What is put under a name is found there, and under every other name what was found before.
#[tactic(auto, using(crate::proofs::MapLaws::puts_are_found))]
pub fn puts_are_found<V>()
    ensures { PutsAreFound V }
{}

/// A row is there still after a value is put under a name that has none.
#[tactic(auto, using(crate::proofs::MapLaws::puts_keep_rows))]
pub fn puts_keep_rows<V>()
    ensures { PutsKeepRows V }
{}

/// What is taken out is not found, and under every other name what was found before.
#[tactic(auto, using(crate::proofs::MapLaws::out_is_out))]
pub fn out_is_out<V>()
    ensures { OutIsOut V }
{}

/// A name that is put below a directory that is there leaves a tree.
#[tactic(auto, using(crate::proofs::TreeLaws::puts_keep_trees))]
pub fn puts_keep_trees()
    ensures { PutsKeepTrees }
{}

/// A name that is renamed in a tree leaves a tree.
#[tactic(auto, using(crate::proofs::RenameLaws::renames_keep_trees))]
pub fn renames_keep_trees()
    ensures { RenamesKeepTrees }
{}

/// If the object of each directory passes a test, it does so after a name is put into such a directory, or renamed into one.
#[tactic(auto, using(crate::proofs::DirectoryLaws::puts_keep_parents, crate::proofs::DirectoryLaws::renames_keep_parents))]
pub fn parents_are_kept()
    ensures puts { PutsKeepParents }
    ensures renames { RenamesKeepParents }
{}

/// After a rename each name that was there is found under the one to which it was renamed, with its object, and no other is:
/// so the old name and all below it are gone.
#[tactic(auto, using(crate::proofs::RenameLaws::renames_are_found, crate::proofs::RenameLaws::renames_add_nothing, crate::proofs::RenameLaws::renames_leave_nothing))]
pub fn renames_are_found()
    ensures found { RenamesAreFound }
    ensures nothing { RenamesAddNothing }
    ensures gone { RenamesLeaveNothing }
{}

/// Rows that lead to different objects do so after one with the next number is put, and after one is taken out.
#[tactic(auto, using(crate::proofs::NumberLaws::puts_keep_numbers, crate::proofs::NumberLaws::outs_keep_numbers))]
pub fn numbers_are_kept<V>()
    ensures puts { PutsKeepNumbers V }
    ensures outs { OutsKeepNumbers V }
{}

/// And after a rename.
#[tactic(auto, using(crate::proofs::NumberLaws::renames_keep_numbers))]
pub fn renames_keep_numbers()
    ensures { RenamesKeepNumbers }
{}

/// A name that is folded is a name.
#[tactic(auto, using(crate::proofs::Named::names_fold))]
pub fn names_fold()
    ensures { NamesFold }
{
    names_are_paths();
    paths_are_names();
}
