// Which version of the calls this archive has, for a program whose header may be of another.
ghost use Rattle.std.specs.Prelude.{◌≡◌};
ghost use Rattle.layout.specs.Answers.Structs.{version};

use layout::structs;

#[unsafe(no_mangle)]
pub extern "C" fn sxf_version() -> u32
    ensures { result ≡ version }
{
    structs::VERSION
}
