//! What a symbol keeps of the name that was read.

ghost use Rattle.demangle_nodes.specs.TreeNodes.{tree_of_mangled_name};
ghost use Rattle.demangle_table.specs.TableOf.{table_of};
ghost use Rattle.cpp_demangle.specs.Made.{IsMade};

use demangle_cells::Arena;
use demangle_context::{DemangleError, DemangleOptions, DemangleWrite, TextSink};
use demangle_nodes_to_cells::mangled_name_to;
use demangle_parse::{arena_of, taken_out};
use demangle_release::{release, release_table};
use demangle_text::Result;
use demangle_tree::{MangledName, SubstitutionTable};
use demangler::tell_tree;
use std::alloc::Global;

/// A name that was read into an arena: the cells, from which it is printed, and the tree and the table made out of
/// them, which are shown.
pub(crate) struct KeptName {
    arena: Arena,
    root: u32,
    parsed: MangledName,
    substitutions: SubstitutionTable,
    ghost made: { ∥ IsMade arena root (tree_of_mangled_name parsed) (table_of substitutions) ∥₁ },
}

impl KeptName {
    ghost use Rattle.std.specs.Prelude.{◌≡◌, MatchResult};
    ghost use Rattle.demangle_text.specs.declared.error.Error.TheVariants.{OutOfMemory};
    ghost use Rattle.demangle_lines_print.specs.Telling.{IsText, Tells, telling};

    /// What is kept of the tree of this index and of the components of its arena: a copy of the cells, without the room
    /// that reading left to spare. `OutOfMemory` is its only refusal.
    pub(crate) fn of(alloc: Global, read: &Arena, root: u32) -> Result<KeptName>
        ensures { MatchResult result
            (λ k. IsMade read.now root (tree_of_mangled_name k.parsed) (table_of k.substitutions))
            (λ e. e ≡ OutOfMemory) }
    {
        let arena = read.fitted(alloc)?;
        let mut substitutions = SubstitutionTable::new(alloc);
        match taken_out(alloc, &arena, 0, root, &mut substitutions) {
            Ok(parsed) => Ok(KeptName {
                arena,
                root,
                parsed,
                substitutions,
            }),
            Err(error) => {
                release_table(substitutions);
                Err(error)
            }
        }
    }

    /// A copy: tree and table are put into an arena of its own. `OutOfMemory` is its only refusal.
    pub(crate) fn copied(&self, alloc: Global) -> Result<KeptName>
        ensures { MatchResult result (λ k. (tree_of_mangled_name k.parsed ≡ tree_of_mangled_name self.now.parsed)
            × (table_of k.substitutions ≡ table_of self.now.substitutions)) (λ e. e ≡ OutOfMemory) }
    {
        let mut arena = arena_of(alloc, &self.substitutions)?;
        let root = mangled_name_to(&mut arena, &self.parsed)?;
        KeptName::of(alloc, &arena, root)
    }

    /// The tree of the name.
    pub(crate) fn parsed(&self) -> &MangledName
        ensures { result.now ≡ self.now.parsed }
    {
        &self.parsed
    }

    /// The components of the name.
    pub(crate) fn substitutions(&self) -> &SubstitutionTable
        ensures { result.now ≡ self.now.substitutions }
    {
        &self.substitutions
    }

    /// Tells a listener the text of the name, and the nodes in it. Errors are those of the printing of its tree; where
    /// there is no memory for its stacks, the listener is told nothing.
    pub(crate) fn tell<W: DemangleWrite>(
        &self,
        alloc: Global,
        input: &[u8],
        options: &DemangleOptions,
        out: &mut W,
    ) -> std::result::Result<(), DemangleError>
        ensures { Tells (W.seen out.old) (W.seen out.new) options.now.limit
            (telling (table_of self.now.substitutions) input.now options.now (tree_of_mangled_name self.now.parsed))
            result }
    {
        tell_tree(alloc, &self.arena, self.root, input, out, options)
    }

    /// The text of the name. Errors are those of `tell`, but `Sink` never comes.
    pub(crate) fn text(
        &self,
        alloc: Global,
        input: &[u8],
        options: &DemangleOptions,
    ) -> std::result::Result<String, DemangleError>
        ensures { IsText
            (telling (table_of self.now.substitutions) input.now options.now (tree_of_mangled_name self.now.parsed))
            result }
    {
        let mut sink = TextSink::new(alloc);
        match self.tell(alloc, input, options, &mut sink) {
            Ok(()) => Ok(sink.into_string()),
            Err(error) => Err(error),
        }
    }
}

impl Drop for KeptName {
    fn drop(self) {
        let KeptName {
            arena,
            root: _,
            parsed,
            substitutions,
        } = self;
        drop(arena);
        release(parsed, substitutions);
    }
}
