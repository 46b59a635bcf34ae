// Laws of files and directories. None of these functions changes anything: each contract is a law.
ghost use Rattle.sb_services.specs.FileLaws.{CreatesAreFound, CreatesGiveAttributes, CreatesGrantFiles, CreatesGrantTheirFile, CreatesKeepFiles, CreatesKeepNames, CreatesLeaveOthers, CreatesMakeOne, OpensLeaveNames, RefusalsChangeNothing, RefusedRenamesChangeNothing, RenamesAddNothing, RenamesKeepObjects, RenamesMove, RenamesLeaveNothing, RenamesLeaveOthers, ClosesKeepFiles, ClosesLeaveFiles, GrantsLeaveFiles};

use sb_handles::agreement_is_kept as shares_are_kept;
use sb_names::{puts_are_found, puts_keep_rows, renames_are_found};

/// A call that answers a status other than success leaves files and handles as they are.
#[tactic(auto, using(crate::proofs::FileAgreement::refused_file_calls_change_nothing, crate::proofs::RenameLaws::refused_renames_change_nothing))]
pub fn refused_file_calls_change_nothing()
    ensures create { RefusalsChangeNothing }
    ensures rename { RefusedRenamesChangeNothing }
{}

/// A file.create grants one handle at most, on a file or directory, and makes one object at most.
#[tactic(auto, using(crate::proofs::FileAgreement::creates_grant_files, crate::proofs::FileAgreement::creates_make_one))]
pub fn creates_grant_files()
    ensures granted { CreatesGrantFiles }
    ensures made { CreatesMakeOne }
{}

/// The file or directory found under a name is the one that was made there, whatever file.create or file.open came after.
#[tactic(auto, using(crate::proofs::FileCreationLaws::creates_are_found, crate::proofs::FileCreationLaws::opens_leave_names))]
pub fn files_are_found_where_made()
    ensures creates { CreatesAreFound }
    ensures opens { OpensLeaveNames }
{
    puts_are_found::<u64>();
}

/// What is found under the name of a file.create that made it is what was asked for; after one that replaced its attributes
/// it has those that were asked for; any other file.create leaves it as it was, and each leaves all other names.
#[tactic(auto, using(crate::proofs::FileCreationLaws::creates_give_attributes, crate::proofs::FileCreationLaws::creates_leave_others))]
pub fn creates_give_attributes()
    ensures own { CreatesGiveAttributes }
    ensures others { CreatesLeaveOthers }
{
    puts_are_found::<u64>();
}

/// Files and directories stay under their names after each file.create.
#[tactic(auto, using(crate::proofs::FileCreationLaws::creates_keep_names))]
pub fn files_stay()
    ensures { CreatesKeepNames }
{
    puts_keep_rows::<u64>();
}

/// A file.create that succeeds grants its handle on what is found under the name, with the access and sharing asked for.
#[tactic(auto, using(crate::proofs::FileCreationLaws::creates_grant_their_file))]
pub fn creates_grant_their_file()
    ensures { CreatesGrantTheirFile }
{
    puts_are_found::<u64>();
}

/// After a rename the old name and each below it are found at their new places, with the same objects, and nowhere else. All
/// other names are found as before.
#[tactic(auto, using(crate::proofs::RenameLaws::renames_keep_objects, crate::proofs::RenameLaws::renames_move, crate::proofs::RenameLaws::renames_leave_nothing, crate::proofs::RenameLaws::renames_leave_others, crate::proofs::RenameLaws::renames_add_nothing))]
pub fn renames_move_names()
    ensures objects { RenamesKeepObjects }
    ensures moved { RenamesMove }
    ensures gone { RenamesLeaveNothing }
    ensures others { RenamesLeaveOthers }
    ensures nothing { RenamesAddNothing }
{
    renames_are_found();
}

/// Files that agree with a handle table agree after each file.create, after a handle was closed in both, and after one on any
/// other object was granted or closed.
#[tactic(auto, using(crate::proofs::FileAgreement::creates_keep_files, crate::proofs::FileAgreement::closes_keep_files, crate::proofs::FileAgreement::closes_leave_files, crate::proofs::FileAgreement::grants_leave_files))]
pub fn file_agreement_is_kept()
    ensures creates { CreatesKeepFiles }
    ensures closes { ClosesKeepFiles }
    ensures other_closes { ClosesLeaveFiles }
    ensures other_grants { GrantsLeaveFiles }
{
    shares_are_kept();
}
