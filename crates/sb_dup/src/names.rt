// The names of objects.
ghost use Rattle.std.specs.Prelude.{◌≡◌, true, IfOk, IfSome};
ghost use Rattle.sb_base.specs.Names.{is_name_of};
ghost use Rattle.sb_dup.specs.Names.{object_name};

use sb_base::{NoMemory, Wide};
use sb_handles::Object;
use sb_kernel::Kernel;

#[tactic(auto, using(crate::proofs::Naming::name_is, crate::proofs::Naming::is_named))]
/// The folded name of an object of a kernel, or None if nothing leads to it. A pipe has none.
///
/// # Errors
/// `NoMemory` if there was none for the name.
pub(crate) fn object_name(kernel: &Kernel, object: Object) -> Result<Option<Wide>, NoMemory>
    ensures name { IfOk result (λ name. name ≡ object_name kernel.now object) }
    ensures named { IfOk result (λ name. IfSome name (λ units. is_name_of units ≡ true)) }
{
    kernel.establish_sound();
    kernel.object_name(object)
}
