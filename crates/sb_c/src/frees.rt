// A handle is emptied.
ghost use Rattle.std.specs.Prelude.{◌≡◌, None, is_some};
ghost use Rattle.sb_c.specs.Handles.{content};
ghost use Rattle.sb_c.specs.Statuses.{done_or_bad};

use crate::handles::Handle;
use crate::statuses::done_or_bad;
use std::alloc::Global;

/// Empties a handle, and frees what it held. A bad call exactly if it held nothing.
#[unsafe(no_mangle)]
pub extern "C" fn sb_free(alloc: Global, handle: &mut Handle) -> u32
    ensures status { result ≡ done_or_bad (is_some (content handle.old)) }
    ensures empty { content handle.new ≡ None }
{
    done_or_bad(handle.take(alloc).is_some())
}
