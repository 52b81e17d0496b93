// The version, which a linked host can ask for.
ghost use Rattle.std.specs.Prelude.{◌≡◌};
ghost use Rattle.misqafur.specs.Version.{version_number};

// Its name has the number of the interface, and the header refers to it: a host compiled for another one does not link.
#[unsafe(no_mangle)]
pub extern "C" fn misqafur_abi_3() -> u32
    ensures { result ≡ version_number }
{
    30200
}
