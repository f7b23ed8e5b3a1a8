//! The levels that are left, by value: a reader that enters a level gives none back.

ghost use Rattle.std.specs.Prelude.{◌≡◌, suc, MatchResult};
ghost use Rattle.demangle_cells.specs.Reads.{Passes};
ghost use Rattle.demangle_text.specs.declared.error.Error.TheVariants.{TooMuchRecursion};

use demangle_text::{Error, Result};

/// How many levels may still be entered, and whether a conversion operator's type is being read.
#[derive(Clone, Copy)]
pub struct Depth {
    pub levels: u32,
    pub conversion: bool,
}

impl Depth {
    /// One level deeper. `TooMuchRecursion` exactly where no level is left.
    pub fn enter(self) -> Result<Depth>
        ensures { MatchResult result
            (λ d. (self.levels ≡ suc d.levels) × (d.conversion ≡ self.conversion))
            (λ e. (e ≡ TooMuchRecursion) × (self.levels ≡ 0)) }
    {
        if self.levels == 0 {
            Err(Error::TooMuchRecursion)
        } else {
            Ok(Depth {
                levels: self.levels - 1,
                conversion: self.conversion,
            })
        }
    }
}

/// A failure to read the bytes, which an alternative passes over, inside of the answer; any other failure outside.
pub fn passed<X>(answer: Result<X>) -> Result<Result<X>>
    ensures { Passes answer result }
{
    match answer {
        Ok(x) => Ok(Ok(x)),
        Err(
            error @ (Error::UnexpectedEnd
            | Error::UnexpectedText
            | Error::BadBackReference
            | Error::Overflow),
        ) => Ok(Err(error)),
        Err(error) => Err(error),
    }
}
