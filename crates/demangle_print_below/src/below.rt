//! What lies below a line.

ghost use Rattle.std.specs.Prelude.{◌≡◌, MatchOption};
ghost use Rattle.demangle_nodes.specs.TreeNodes.{tree_of_encoding, tree_of_expression, tree_of_mangled_name};
ghost use Rattle.demangle_nodes.specs.TreeNodes.{tree_of_name, tree_of_template_arg};
ghost use Rattle.demangle_entries.specs.TreeEntries.{tree_of_substitutable};
ghost use Rattle.demangle_table.specs.TableOf.{table_of};
ghost use Rattle.demangle_meets.specs.Place.{Place};
ghost use Rattle.demangle_meets.specs.Calls.{Enters, Stops};
ghost use Rattle.demangle_meets.specs.Meets.{Inner, Prints};
ghost use Rattle.demangle_scope.specs.ItemTree.{item_tree};
ghost use Rattle.demangle_scope.specs.ScopeOf.{scope_of};
ghost use Rattle.demangle_print_below.specs.PageOf.{page};

use demangle_entries::{Encoding, Expression, MangledName, Name, Substitutable, TemplateArg};
use demangle_scope::{ArgScopeStack, DemangleContext, DemangleWrite, InnerItem};
use demangle_table::SubstitutionTable;

/// The lines through which all recursion goes, at a place: of six types of nodes, which cut every cycle of types, and
/// of what of an item stands behind. All that a line calls besides is called by name.
pub trait Below<'subs, W: DemangleWrite>: Copy {
    ghost at: { Self → Place };
    /// The lines may be called.
    ghost can: { Self → Type 0 };

    /// The level.
    fn level(self) -> u32
        ensures { result ≡ (at self).level };

    /// The table to which the trees refer.
    fn subs(self) -> &'subs SubstitutionTable
        ensures { table_of result.now ≡ (at self).refers.table };

    /// The mangled name.
    fn input(self) -> &'subs [u8]
        ensures { result.now ≡ (at self).refers.input };

    /// One level deeper. Where none is left printing stops; `None` then, and where it had stopped.
    fn enter(self, ctx: &mut DemangleContext<'subs, '_, W>) -> Option<Self>
        requires { can self }
        ensures { MatchOption result (Stops (at self) (page W.seen ctx.old) (page W.seen ctx.new))
            (λ deeper. Enters (at self) (at deeper) (page W.seen ctx.old) (page W.seen ctx.new) × can deeper) };

    /// The line of a mangled name.
    fn mangled_name(
        self,
        node: &'subs MangledName,
        scope: Option<ArgScopeStack<'_, 'subs>>,
        ctx: &mut DemangleContext<'subs, '_, W>,
    )
        requires { can self }
        ensures { Prints (at self) (page W.seen ctx.old) (page W.seen ctx.new) (tree_of_mangled_name node.now)
            (scope_of scope.entry) };

    /// The line of an encoding.
    fn encoding(
        self,
        node: &'subs Encoding,
        scope: Option<ArgScopeStack<'_, 'subs>>,
        ctx: &mut DemangleContext<'subs, '_, W>,
    )
        requires { can self }
        ensures { Prints (at self) (page W.seen ctx.old) (page W.seen ctx.new) (tree_of_encoding node.now)
            (scope_of scope.entry) };

    /// The line of a name.
    fn name(
        self,
        node: &'subs Name,
        scope: Option<ArgScopeStack<'_, 'subs>>,
        ctx: &mut DemangleContext<'subs, '_, W>,
    )
        requires { can self }
        ensures { Prints (at self) (page W.seen ctx.old) (page W.seen ctx.new) (tree_of_name node.now)
            (scope_of scope.entry) };

    /// The line of an expression.
    fn expression(
        self,
        node: &'subs Expression,
        scope: Option<ArgScopeStack<'_, 'subs>>,
        ctx: &mut DemangleContext<'subs, '_, W>,
    )
        requires { can self }
        ensures { Prints (at self) (page W.seen ctx.old) (page W.seen ctx.new) (tree_of_expression node.now)
            (scope_of scope.entry) };

    /// The line of a template argument.
    fn template_arg(
        self,
        node: &'subs TemplateArg,
        scope: Option<ArgScopeStack<'_, 'subs>>,
        ctx: &mut DemangleContext<'subs, '_, W>,
    )
        requires { can self }
        ensures { Prints (at self) (page W.seen ctx.old) (page W.seen ctx.new) (tree_of_template_arg node.now)
            (scope_of scope.entry) };

    /// The line of what a component holds.
    fn substitutable(
        self,
        node: &'subs Substitutable,
        scope: Option<ArgScopeStack<'_, 'subs>>,
        ctx: &mut DemangleContext<'subs, '_, W>,
    )
        requires { can self }
        ensures { Prints (at self) (page W.seen ctx.old) (page W.seen ctx.new) (tree_of_substitutable node.now)
            (scope_of scope.entry) };

    /// What of an item stands behind.
    fn inner(
        self,
        item: InnerItem<'subs>,
        scope: Option<ArgScopeStack<'_, 'subs>>,
        ctx: &mut DemangleContext<'subs, '_, W>,
    )
        requires { can self }
        ensures { Inner (at self) (page W.seen ctx.old) (page W.seen ctx.new) (item_tree item.entry)
            (scope_of scope.entry) };
}
