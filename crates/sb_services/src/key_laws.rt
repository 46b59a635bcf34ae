// Laws of keys. None of these functions changes anything: each contract is a law.
ghost use Rattle.sb_services.specs.KeyLaws.{RefusedCreatesChangeNothing, RefusedOpensChangeNothing, CreatesAreFound, CreatesGrantTheirKey, OpensGrantTheirKey, OpensLeaveKeys, CreatesKeepKeys, CreatesKeepTrees};

use sb_names::{puts_are_found, puts_keep_rows, puts_keep_trees};

/// A call that neither made nor opened a key leaves keys and handles as they were.
pub fn refused_key_calls_change_nothing()
    ensures creates { RefusedCreatesChangeNothing }
    ensures opens { RefusedOpensChangeNothing }
{}

/// The key found under a name is the one that was made there, whatever call came after.
#[tactic(auto, using(crate::proofs::KeyLaws::creates_are_found))]
pub fn keys_are_found_where_made()
    ensures creates { CreatesAreFound }
    ensures opens { OpensLeaveKeys }
{
    puts_are_found::<u64>();
}

/// Keys keep their names: each row is there after each call that makes or opens a key.
#[tactic(auto, using(crate::proofs::KeyLaws::creates_keep_keys))]
pub fn keys_stay()
    ensures { CreatesKeepKeys }
{
    puts_keep_rows::<u64>();
}

/// If each key is below one that is there, or below the root, each is so after a call that makes a key.
#[tactic(auto, using(crate::proofs::KeyLaws::creates_keep_trees))]
pub fn keys_stand_below_keys()
    ensures { CreatesKeepTrees }
{
    puts_keep_trees();
}

/// A call that succeeds grants its handle on the key that is found under the name, with the access that was asked for.
#[tactic(auto, using(crate::proofs::KeyGrants::creates_grant_their_key, crate::proofs::KeyGrants::opens_grant_their_key))]
pub fn calls_grant_their_key()
    ensures creates { CreatesGrantTheirKey }
    ensures opens { OpensGrantTheirKey }
{
    puts_are_found::<u64>();
}
