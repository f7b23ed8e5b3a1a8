//! Trees, as lines see them.

ghost use Rattle.std.specs.Prelude.{◌≡◌, IfSome, List, ℕ, Some, length, option_map, true};
ghost use Rattle.demangle_core.specs.Lookups.{as_prefix, as_type, is_special, leaf_name, template_args};
ghost use Rattle.demangle_core.specs.Table.{Table};
ghost use Rattle.demangle_printing.specs.Reader.{bytes_seen, index_seen};
ghost use Rattle.demangle_printing.specs.Rules.{of_part};
ghost use Rattle.demangle_printing.specs.Trees.{began_at, look_in, with_table};
ghost use Rattle.demangle_printing.specs.World.{nth, parts_seen};
ghost use Rattle.demangle_lines.specs.Known.{IsPlainName, unqualified};
ghost use Rattle.demangle_lines.specs.Shapes.{leaf_text_seen, number_of, shape_in, text_seen, value_seen};

use demangle_context::RefersTo;

/// What a tree is, one step deep.
#[derive(Clone, Copy)]
pub enum Shape {
    /// No tree.
    Nothing,
    /// A node, by the number of its tag.
    Node(u8),
    /// A word of a table.
    Word(u8, u8),
    /// A number.
    Number,
    /// Whether something is so.
    Flag(bool),
    /// Bytes of the input.
    Bytes,
}

/// A number that a tree holds.
#[derive(Clone, Copy)]
pub enum Number {
    /// One that isn't below zero.
    Counted(usize),
    /// Any.
    Signed(isize),
}

/// A tree, by whatever stands for it: a small value. All parts are found by their numbers from 0, and so are the
/// trees of a list, which are the parts of its node. References look like the components of the table `subs`.
pub trait Tree<S>: RefersTo<S> {
    /// What it is.
    fn shape(self, subs: &S) -> Shape
        ensures { (input : List ℕ) → result ≡ shape_in (look_in (Self.table subs.now) input (Self.tree self)) };

    /// How many parts it has.
    fn count(self, subs: &S) -> usize
        ensures { (input : List ℕ) → result
            ≡ length (parts_seen (look_in (Self.table subs.now) input (Self.tree self))) };

    /// The part of this number; `None` exactly where it has no such part.
    fn part(self, number: usize, subs: &S) -> Option<Self>
        ensures { (input : List ℕ) → option_map Self.tree result
            ≡ nth number (parts_seen (look_in (Self.table subs.now) input (Self.tree self))) };

    /// What is printed for it: what an optional part, a handle or a component holds; any other node and a word are
    /// themselves.
    fn printed(self, subs: &S) -> Option<Self>
        ensures { (input : List ℕ) → option_map Self.tree result
            ≡ of_part (with_table (Self.table subs.now) input) (Some (Self.tree self)) };

    /// The bytes, where it is bytes of the input.
    fn bytes<'s>(self, input: &'s [u8]) -> &'s [u8]
        ensures { (table : Table) → result.now ≡ bytes_seen (look_in table input.now (Self.tree self)) };

    /// The number, where it is one.
    fn number(self) -> Number
        ensures { (table : Table) (input : List ℕ) → number_of result
            ≡ value_seen (look_in table input (Self.tree self)) };

    /// The number, where it is one that isn't below zero; 0 elsewhere.
    fn index(self) -> usize
        ensures { (table : Table) (input : List ℕ) → result ≡ index_seen (look_in table input (Self.tree self)) };

    /// The text, where it is a word.
    fn text(self) -> &'static str
        ensures { (table : Table) (input : List ℕ) → result.now
            ≡ text_seen (look_in table input (Self.tree self)) };

    /// The text of a leaf name, where it is a component, which is a word.
    fn leaf_text(self) -> &'static str
        ensures { (table : Table) (input : List ℕ) → result.now
            ≡ leaf_text_seen (look_in table input (Self.tree self)) };

    /// Where it began in the input, where it is a list of template arguments; 0 elsewhere.
    fn began(self) -> usize
        ensures { result ≡ began_at (Self.tree self) };

    /// The bytes of an unqualified name that is an identifier alone, where this is seen at once. `None` says nothing.
    fn plain_name<'s>(self, input: &'s [u8]) -> Option<&'s [u8]>
        ensures { IfSome result (λ bytes. IsPlainName input.now (Self.tree self) bytes.now) };

    /// Whether it is seen at once that it is the qualifiers of a type, and that it has none. `false` says nothing.
    fn is_unqualified(self) -> bool
        ensures { result ≡ true → Self.tree self ≡ unqualified };

    /// The leaf name of a name or a type.
    fn leaf_name(self, subs: &S) -> Option<Self>
        ensures { option_map Self.tree result ≡ leaf_name (Self.table subs.now) (Self.tree self) };

    /// The template arguments of a name.
    fn prefix_arguments(self, subs: &S) -> Option<Self>
        ensures { option_map Self.tree result ≡ template_args as_prefix (Self.table subs.now) (Self.tree self) };

    /// The template arguments of a type.
    fn type_arguments(self, subs: &S) -> Option<Self>
        ensures { option_map Self.tree result ≡ template_args as_type (Self.table subs.now) (Self.tree self) };

    /// Whether a name is that of a constructor, a destructor or a conversion.
    fn is_special(self, subs: &S) -> bool
        ensures { result ≡ is_special (Self.table subs.now) (Self.tree self) };
}
