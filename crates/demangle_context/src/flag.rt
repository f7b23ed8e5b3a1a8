//! The flags of a printing, by name.

ghost use Rattle.std.specs.Prelude.{◌≡◌};
ghost use Rattle.demangle_printing.specs.State.{is_on, put};
ghost use Rattle.demangle_context.specs.View.{flags_of};
ghost use Rattle.demangle_context.specs.FlagOf.{flag_of};

use crate::context::DemangleFlags;

/// What lines of printing tell each other.
#[derive(Clone, Copy, Debug, PartialEq, Eq)]
pub enum PrintFlag {
    /// In the signature of a closure, where a template parameter is `auto:1`.
    Lambda,
    /// The next prefix is that of template arguments.
    TemplatePrefix,
    /// The next prefix is that of a nested name.
    NestedPrefix,
    /// A pack was printed: there are no dots behind its expansion.
    Pack,
    /// The next parameters have an explicit object.
    Object,
    /// Functions have their parameters.
    Params,
    /// Function templates have their result.
    Returns,
    /// Literals have their types.
    LiteralTypes,
}

pub(crate) fn is_on(flag: PrintFlag, flags: DemangleFlags) -> bool
    ensures { result ≡ is_on (flag_of flag) (flags_of flags) }
{
    match flag {
        PrintFlag::Lambda => flags.lambda,
        PrintFlag::TemplatePrefix => flags.tprefix,
        PrintFlag::NestedPrefix => flags.nprefix,
        PrintFlag::Pack => flags.pack,
        PrintFlag::Object => flags.object,
        PrintFlag::Params => flags.params,
        PrintFlag::Returns => flags.returns,
        PrintFlag::LiteralTypes => flags.littypes,
    }
}

pub(crate) fn put(flag: PrintFlag, on: bool, mut flags: DemangleFlags) -> DemangleFlags
    ensures { flags_of result ≡ put (flag_of flag) on (flags_of flags) }
{
    match flag {
        PrintFlag::Lambda => flags.lambda = on,
        PrintFlag::TemplatePrefix => flags.tprefix = on,
        PrintFlag::NestedPrefix => flags.nprefix = on,
        PrintFlag::Pack => flags.pack = on,
        PrintFlag::Object => flags.object = on,
        PrintFlag::Params => flags.params = on,
        PrintFlag::Returns => flags.returns = on,
        PrintFlag::LiteralTypes => flags.littypes = on,
    }
    flags
}
