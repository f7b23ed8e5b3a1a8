//! The parts of a name.

ghost use Rattle.std.specs.Prelude.{◌≡◌, IfOk, option_map};
ghost use Rattle.demangler.specs.Contents.{telling_of};
ghost use Rattle.cpp_demangle.specs.SymbolOf.{contents_of};
ghost use Rattle.demangle_parts.specs.Answers.{IsDivided, JoinsTo, parts_in};
ghost use Rattle.demangle_parts.specs.Parts.{divided, for_parts};

use crate::kind::Kind;
use crate::signature::signature_of;
use cpp_demangle::{DemangleOptions, RawBytes, Symbol};
use demangle_context::DemangleError;
use demangle_parts_text::{Divided, Heard, joins_cut, keeps_text};
use std::alloc::Global;

/// A linker name in parts, printed without a result type.
#[derive(Drop, Debug)]
pub struct Parts {
    kind: Kind,
    divided: Divided,
    arity: Option<usize>,
}

impl Parts {
    /// What the name is of.
    pub fn kind(&self) -> Kind
        ensures { result ≡ (parts_in self.now).kind }
    {
        self.kind
    }

    /// The class or the namespace that the name is in; `None` where it is in none, or in a function.
    pub fn scope(&self) -> Option<&str>
        ensures { option_map (λ x. x.now) result ≡ (parts_in self.now).cut.scope }
    {
        self.divided.scope()
    }

    /// The name in its scope, with its template arguments.
    pub fn base(&self) -> &str
        ensures { result.now ≡ (parts_in self.now).cut.base }
    {
        self.divided.base()
    }

    /// What is behind the base, as the parameters.
    pub fn after(&self) -> &str
        ensures { result.now ≡ (parts_in self.now).cut.after }
    {
        self.divided.after()
    }

    /// How many parameters a function has; `None` exactly for other kinds.
    pub fn arity(&self) -> Option<usize>
        ensures { result ≡ (parts_in self.now).arity }
    {
        self.arity
    }
}

/// The parts of a name, printed under these options but without a result type. Scope and `::`, where there is one, base
/// and what is behind it are the text that `Symbol::demangle_with_options` gives then. Errors are exactly those of
/// `Symbol::structured_demangle` then, never `Sink`, and `OutOfMemory` where there is no memory.
pub fn parts_of<T: RawBytes>(
    alloc: Global,
    symbol: &Symbol<T>,
    print: &DemangleOptions,
) -> Result<Parts, DemangleError>
    ensures parts { IsDivided (divided print.now (contents_of symbol.now)) result }
    ensures joins { IfOk result
        (λ p. JoinsTo (telling_of (for_parts print.now) (contents_of symbol.now)) (parts_in p).cut) }
{
    let signature = signature_of(symbol.parsed(), symbol.substitutions());
    let options = print.no_return_type();
    // Laws: what is divided has the text of what was heard.
    keeps_text();
    joins_cut();
    let mut heard = Heard::new(alloc);
    match symbol.structured_demangle(alloc, &mut heard, &options) {
        Err(error) => Err(error),
        Ok(()) => match heard.divided(signature.has_parts) {
            None => Err(DemangleError::OutOfMemory),
            Some(divided) => Ok(Parts {
                kind: signature.kind,
                divided,
                arity: signature.arity,
            }),
        },
    }
}
