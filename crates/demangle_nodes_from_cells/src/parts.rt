//! What is let go where a later part is refused.

ghost use Rattle.std.specs.Prelude.{◌≡◌, ◌++◌, ◌∷◌, [], IfErr, IfOk, Ok, Err, OnErr};
ghost use Rattle.demangle_text.specs.declared.error.Error.TheVariants.{OutOfMemory};
ghost use Rattle.demangle_nodes_from_cells.specs.Memory.{OfMemory};

use demangle_discard::Discard;
use demangle_text::{Error, Result};
use std::alloc::Global;

/// What was made, in a box.
pub(crate) fn boxed<A: Discard>(alloc: Global, value: Result<A>) -> Result<Box<A>>
    requires { OfMemory value }
    ensures inside { IfOk result (λ r. value ≡ Ok r.value) }
    ensures refused { IfErr result (λ e. e ≡ OutOfMemory) }
{
    match Box::new(alloc, value?) {
        Ok(value) => Ok(value),
        Err(refused) => {
            refused.value.discard();
            Err(Error::OutOfMemory)
        }
    }
}

/// What is held beside the next.
pub(crate) fn kept<A: Discard, B>(held: A, next: Result<B>) -> Result<(A, B)>
    requires { OfMemory next }
    ensures first { IfOk result (λ r. r.0 ≡ held) }
    ensures second { IfOk result (λ r. next ≡ Ok r.1) }
    ensures refused { IfErr result (λ e. e ≡ OutOfMemory) }
{
    match next {
        Ok(next) => Ok((held, next)),
        Err(error) => {
            held.discard();
            Err(error)
        }
    }
}

/// The list with the next at its end.
pub(crate) fn grown<A: Discard>(list: Vec<A>, next: A) -> Result<Vec<A>>
    ensures made { IfOk result (λ r. r.items ≡ list.items ++ next ∷ []) }
    ensures refused { IfErr result (λ e. e ≡ OutOfMemory) }
{
    let mut list = list;
    match list.push(next) {
        Ok(()) => Ok(list),
        Err(refused) => {
            refused.value.discard();
            list.discard();
            Err(Error::OutOfMemory)
        }
    }
}
