//! The reading of a whole name.

ghost use Rattle.std.specs.Prelude.{[], MatchResult};
ghost use Rattle.demangle_read.specs.Reading.{reading, whole};
ghost use Rattle.cpp_demangle.specs.Found.{IsFound, IsMissing};

use crate::kept::KeptName;
use demangle_cells::Arena;
use demangle_text::{Error, ParseOptions, Result};
use std::alloc::Global;

/// The name at the front, and what is left behind it. Each refusal is the reading's, or `OutOfMemory`.
#[inline(always)]
pub(crate) fn read_front<'a>(
    alloc: Global,
    input: &'a [u8],
    options: &ParseOptions,
) -> Result<(KeptName, &'a [u8])>
    ensures { MatchResult result (λ x. IsFound (reading options.now input.entry.now) x.1.now x.0)
        (IsMissing (reading options.now input.entry.now)) }
{
    let mut arena = Arena::new(alloc);
    match demangle_read::read_front(&mut arena, input, options) {
        Ok(part) => {
            let rest = &input[part.end as usize..];
            match KeptName::of(alloc, &arena, part.id) {
                Ok(name) => Ok((name, rest)),
                Err(_) => Err(Error::OutOfMemory),
            }
        }
        Err(error) => Err(error),
    }
}

/// The name. `UnexpectedText` comes also where bytes are left behind it.
#[inline(always)]
pub(crate) fn read_whole(alloc: Global, input: &[u8], options: &ParseOptions) -> Result<KeptName>
    ensures { MatchResult result (IsFound (whole (reading options.now input.now)) [])
        (IsMissing (whole (reading options.now input.now))) }
{
    let mut arena = Arena::new(alloc);
    match demangle_read::read_whole(&mut arena, input, options) {
        Ok(id) => match KeptName::of(alloc, &arena, id) {
            Ok(name) => Ok(name),
            Err(_) => Err(Error::OutOfMemory),
        },
        Err(error) => Err(error),
    }
}
