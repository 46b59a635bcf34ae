// Names and what they lead to: a flat map, and a tree of linked nodes in which each name is in a directory. Names are compared
// folded.
// Names and their parents are those of the object namespace of Windows NT, with ASCII folding alone.
#![tactic(auto)]

mod keys;
mod laws;
mod maps;
mod placing;
mod trees;

pub use keys::{fold_name, is_below, parent};
pub use laws::{
    names_fold, numbers_are_kept, out_is_out, parents_are_kept, puts_are_found, puts_keep_rows,
    puts_keep_trees, renames_are_found, renames_keep_numbers, renames_keep_trees,
};
pub use maps::NameMap;
pub use placing::NewName;
pub use sb_arena::NodeId;
pub use trees::{Lookup, NameTree};
