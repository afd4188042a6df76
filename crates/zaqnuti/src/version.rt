// The version of the library.
ghost use Rattle.std.specs.Prelude.{◌≡◌};
ghost use Rattle.zaqnuti.specs.Version.{version_number};

// Returns 10000 major + 100 minor + patch.
#[unsafe(no_mangle)]
pub extern "C" fn zaqnuti_version() -> u32
    ensures { result ≡ version_number }
{
    701
}
