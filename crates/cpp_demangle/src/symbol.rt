//! Symbols: names that were read.

ghost use Rattle.std.specs.Prelude.{◌≡◌, true, false, [], MatchResult, IfOk, IfErr};
ghost use Rattle.demangle_nodes.specs.TreeNodes.{tree_of_mangled_name};
ghost use Rattle.demangle_table.specs.TableOf.{table_of};
ghost use Rattle.demangler.specs.Contents.{contents};
ghost use Rattle.demangler.specs.Name.{IsSymbol};

use crate::kept::KeptName;
use crate::raw::RawBytes;
use crate::reading::{read_front, read_whole};
use demangle_scope::{DemangleError, DemangleOptions, DemangleWrite};
use demangle_text::{ParseOptions, Result};
use demangle_tree::{MangledName, SubstitutionTable};
use std::alloc::Global;
use std::fmt;
use std::fmt::Write;

/// A name that was read: its bytes, the table of its components, and its tree. Table and tree are always what the
/// ordered reading without a limit gives for the bytes, and sound: each reference is to an entry that was inserted
/// earlier. The original's type of this name.
pub struct Symbol<T: RawBytes> {
    raw: T,
    name: KeptName,
    pub ghost is: { ∥ IsSymbol (contents (T.bytes raw) (table_of name.substitutions)
        (tree_of_mangled_name name.parsed)) ∥₁ },
}

/// A symbol that owns its bytes.
pub type OwnedSymbol = Symbol<Vec<u8>>;

/// A symbol that borrows its bytes.
pub type BorrowedSymbol<'a> = Symbol<&'a [u8]>;

impl<T: RawBytes> Symbol<T> {
    ghost use Rattle.demangle_printing.specs.Laws.{holds_param};
    ghost use Rattle.demangle_printing.specs.Declarators.{Plain, declared};
    ghost use Rattle.demangle_context.specs.Options.{default_options};
    ghost use Rattle.demangler.specs.Answer.{may_come, print_fault};
    ghost use Rattle.demangle_read.specs.Reading.{reading, whole};
    ghost use Rattle.demangler.specs.Name.{IsRead, IsRefused, IsNotWhole};
    ghost use Rattle.demangle_lines_print.specs.Telling.{Tells, IsText};
    ghost use Rattle.demangler.specs.Plain.{IsPlain, Declares};
    ghost use Rattle.demangler.specs.Contents.{expanded, telling_of, telling_unshared};
    ghost use Rattle.cpp_demangle.specs.SymbolOf.{contents_of};

    /// The symbol of a whole name, read under the default options. Errors are those of `new_with_options`.
    pub fn new(alloc: Global, raw: T) -> Result<Symbol<T>>
        ensures read { MatchResult result (λ s. IsRead 96 (T.bytes raw) [] (contents_of s))
            (IsRefused (whole (reading 96 (T.bytes raw)))) }
        ensures raw { IfOk result (λ s. s.raw ≡ raw) }
        ensures as_with_tail { IfErr result (IsNotWhole (reading 96 (T.bytes raw))) }
    {
        Symbol::new_with_options(alloc, raw, &ParseOptions::default())
    }

    /// The symbol of a whole name. `UnexpectedEnd`, `UnexpectedText`, `Overflow` and `TooMuchRecursion` come exactly
    /// where the ordered reading is refused so, `UnexpectedText` also where bytes are left behind the name, and
    /// `OutOfMemory` where there is no memory. So it is Ok where `with_tail_and_options` leaves nothing.
    pub fn new_with_options(alloc: Global, raw: T, options: &ParseOptions) -> Result<Symbol<T>>
        ensures read { MatchResult result (λ s. IsRead options.now (T.bytes raw) [] (contents_of s))
            (IsRefused (whole (reading options.now (T.bytes raw)))) }
        ensures raw { IfOk result (λ s. s.raw ≡ raw) }
        ensures as_with_tail { IfErr result (IsNotWhole (reading options.now (T.bytes raw))) }
    {
        match read_whole(alloc, raw.raw_bytes(), options) {
            Ok(name) => Ok(Symbol { raw, name }),
            Err(error) => Err(error),
        }
    }

    /// What the symbol was made of.
    pub fn raw(&self) -> &T
        ensures { result.now ≡ self.now.raw }
    {
        &self.raw
    }

    /// The components of the name, which its tree refers to.
    pub fn substitutions(&self) -> &SubstitutionTable
        ensures { table_of result.now ≡ (contents_of self.now).table }
    {
        self.name.substitutions()
    }

    /// The tree of the name.
    pub fn parsed(&self) -> &MangledName
        ensures { tree_of_mangled_name result.now ≡ (contents_of self.now).tree }
    {
        self.name.parsed()
    }

    /// The text of the name, printed under the default options. Errors are those of `demangle_with_options`.
    pub fn demangle(&self, alloc: Global) -> std::result::Result<String, DemangleError>
        ensures text { IsText (telling_of default_options (contents_of self.now)) result }
        ensures shared { holds_param (expanded (contents_of self.now)) ≡ false
            → IsText (telling_unshared default_options (contents_of self.now)) result }
        ensures declared { (p : Plain) → IsPlain (contents_of self.now) p → Declares (declared p) result }
        ensures causes { IfErr result (λ e. may_come (print_fault e) ≡ true) }
    {
        self.demangle_with_options(alloc, &DemangleOptions::default())
    }

    /// The text of the name. Errors are those of the printing of its tree, exactly as the printing table says, never
    /// `Sink`, and `OutOfMemory` where there is no memory.
    pub fn demangle_with_options(
        &self,
        alloc: Global,
        options: &DemangleOptions,
    ) -> std::result::Result<String, DemangleError>
        ensures text { IsText (telling_of options.now (contents_of self.now)) result }
        ensures shared { holds_param (expanded (contents_of self.now)) ≡ false
            → IsText (telling_unshared options.now (contents_of self.now)) result }
        ensures declared { (p : Plain) → IsPlain (contents_of self.now) p → Declares (declared p) result }
        ensures causes { IfErr result (λ e. may_come (print_fault e) ≡ true) }
    {
        self.name.text(alloc, self.raw.raw_bytes(), options)
    }

    /// Tells a listener the text of the name, and where nodes begin and end. Errors are those of the printing of its
    /// tree, exactly as the printing table says; `Sink` comes only where the listener's count of faults rose. For
    /// limits up to 65,536 `OutOfMemory` comes only where its count of refusals rose, or where it was told nothing.
    /// After an error the listener was told the events before it, and then that nodes end, no more than stood open.
    pub fn structured_demangle<W: DemangleWrite>(
        &self,
        alloc: Global,
        out: &mut W,
        options: &DemangleOptions,
    ) -> std::result::Result<(), DemangleError>
        ensures told { Tells (W.seen out.old) (W.seen out.new) options.now.limit
            (telling_of options.now (contents_of self.now)) result }
        ensures shared { holds_param (expanded (contents_of self.now)) ≡ false
            → Tells (W.seen out.old) (W.seen out.new) options.now.limit
            (telling_unshared options.now (contents_of self.now)) result }
    {
        self.name.tell(alloc, self.raw.raw_bytes(), options, out)
    }
}

impl<'a> Symbol<&'a [u8]> {
    ghost use Rattle.demangle_text.specs.declared.error.Error.TheVariants.{OutOfMemory};
    ghost use Rattle.demangle_read.specs.Reading.{reading};
    ghost use Rattle.demangler.specs.Name.{IsRead, IsRefused};
    ghost use Rattle.demangler.specs.Contents.{same_contents};
    ghost use Rattle.cpp_demangle.specs.SymbolOf.{contents_of};

    /// The symbol of the name at the front of the input, read under the default options, and what is left behind it.
    /// Errors are those of `with_tail_and_options`.
    pub fn with_tail(alloc: Global, input: &'a [u8]) -> Result<(BorrowedSymbol<'a>, &'a [u8])>
        ensures { MatchResult result (λ x. IsRead 96 input.entry.now x.1.now (contents_of x.0))
            (IsRefused (reading 96 input.entry.now)) }
    {
        Symbol::with_tail_and_options(alloc, input, &ParseOptions::default())
    }

    /// The symbol of the name at the front of the input, which keeps the whole input as its bytes, and what is left
    /// behind it: the input is the bytes of the name and then these. Errors are those of the ordered reading, and
    /// `OutOfMemory` where there is no memory.
    pub fn with_tail_and_options(
        alloc: Global,
        input: &'a [u8],
        options: &ParseOptions,
    ) -> Result<(BorrowedSymbol<'a>, &'a [u8])>
        ensures { MatchResult result (λ x. IsRead options.now input.entry.now x.1.now (contents_of x.0))
            (IsRefused (reading options.now input.entry.now)) }
    {
        match read_front(alloc, input, options) {
            Ok((name, rest)) => Ok((Symbol { raw: input, name }, rest)),
            Err(error) => Err(error),
        }
    }

    /// A copy, equal to the symbol. `OutOfMemory` is the only refusal. `Clone` in the original.
    pub fn try_clone(&self, alloc: Global) -> Result<BorrowedSymbol<'a>>
        ensures copy { IfOk result (λ s. contents_of s ≡ contents_of self.now) }
        ensures equal { IfOk result (λ s. same_contents (contents_of s) (contents_of self.now) ≡ true) }
        ensures refused { IfErr result (λ e. e ≡ OutOfMemory) }
    {
        let name = self.name.copied(alloc)?;
        Ok(Symbol {
            raw: self.raw,
            name,
        })
    }
}

impl Symbol<Vec<u8>> {
    ghost use Rattle.demangle_text.specs.declared.error.Error.TheVariants.{OutOfMemory};
    ghost use Rattle.demangler.specs.Contents.{same_contents};
    ghost use Rattle.cpp_demangle.specs.SymbolOf.{contents_of};

    /// A copy, equal to the symbol. `OutOfMemory` is the only refusal. `Clone` in the original.
    pub fn try_clone(&self, alloc: Global) -> Result<OwnedSymbol>
        ensures copy { IfOk result (λ s. contents_of s ≡ contents_of self.now) }
        ensures equal { IfOk result (λ s. same_contents (contents_of s) (contents_of self.now) ≡ true) }
        ensures refused { IfErr result (λ e. e ≡ OutOfMemory) }
    {
        let raw = self.raw.to_vec(alloc)?;
        let name = self.name.copied(alloc)?;
        Ok(Symbol { raw, name })
    }
}

impl<T: RawBytes> Drop for Symbol<T> {
    fn drop(self) {
        let Symbol { raw, name } = self;
        drop(raw);
        drop(name);
    }
}

/// `Symbol { raw: .., substitutions: .., parsed: .. }`.
impl<T: RawBytes + fmt::Debug> fmt::Debug for Symbol<T> {
    fn fmt<W: Write>(&self, f: &mut fmt::Formatter<W>) -> fmt::Result {
        f.debug_struct("Symbol")
            .field("raw", &self.raw)
            .field("substitutions", self.name.substitutions())
            .field("parsed", self.name.parsed())
            .finish()
    }
}

/// Equal bytes, tables and trees.
impl<T: RawBytes> PartialEq for Symbol<T> {
    ghost use Rattle.std.specs.Cmp.{on_per, partial_equiv_from_equiv};
    ghost use Rattle.demangle_printing.specs.Outcome.{Options};
    ghost use Rattle.demangler.specs.Contents.{same_contents, same_contents_equiv, telling_of};
    ghost use Rattle.cpp_demangle.specs.SymbolOf.{contents_of};

    ghost eq = { λ a b. same_contents (contents_of a) (contents_of b) };

    ghost laws = { on_per contents_of (partial_equiv_from_equiv same_contents_equiv) };

    /// Of equal symbols the printing tells the same, so they have equal texts or faults under equal options.
    fn eq(&self, other: &Symbol<T>) -> bool
        ensures same { result ≡ same_contents (contents_of self.now) (contents_of other.now) }
        ensures alike { result ≡ true → (o : Options)
            → telling_of o (contents_of self.now) ≡ telling_of o (contents_of other.now) }
    {
        self.raw.raw_bytes() == other.raw.raw_bytes()
            && self.name.substitutions() == other.name.substitutions()
            && self.name.parsed() == other.name.parsed()
    }
}

impl<T: RawBytes> Eq for Symbol<T> {
    ghost use Rattle.std.specs.Cmp.{on_equiv};
    ghost use Rattle.demangler.specs.Contents.{same_contents_equiv};
    ghost use Rattle.cpp_demangle.specs.SymbolOf.{contents_of};

    ghost laws = { on_equiv contents_of same_contents_equiv };
}
