//! The empty scope.

ghost use Rattle.std.specs.Prelude.{◌≡◌, None};

use demangle_lines::Scope;

/// Nothing is in scope. A `None` that is written where a scope is passed has two lifetimes, of which nothing is known;
/// here they are one.
#[inline(always)]
pub fn no_scope<'a, T: Copy>() -> Option<&'a Scope<'a, T>>
    ensures { result ≡ None }
{
    None
}
