// The version of what crosses to C.
ghost use Rattle.std.specs.Prelude.{◌≡◌};

/// The version of the functions and structs of the header. It rises with each change that a program built for an earlier one would not survive.
#[unsafe(no_mangle)]
pub extern "C" fn sb_version() -> u32
    ensures { result ≡ 1 }
{
    1
}
