//! The number of the interface.

ghost use Rattle.std.specs.Prelude.{◌≡◌};

/// The number of the interface that the header declares. It rises where an export, a code or a field changes its
/// meaning.
pub const VERSION: u32 = 1;

/// The number of the interface that this library has, `CPP_DEMANGLE_VERSION` of its header.
#[unsafe(no_mangle)]
pub extern "C" fn cpp_demangle_version() -> u32
    ensures { result ≡ VERSION }
{
    VERSION
}
