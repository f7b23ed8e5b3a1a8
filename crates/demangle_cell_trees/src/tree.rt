//! Nodes as the trees of lines.

use crate::components::Components;
use crate::counts::count_of;
use crate::found::found;
use crate::held::printed_of;
use crate::known::{is_unqualified, plain_name_of};
use crate::node::Node;
use crate::parts::part_of;
use crate::roles::Sought;
use crate::shapes::shape_of;
use crate::texts::{leaf_text_of, text_of};
use crate::values::{began_of, bytes_of, index_in, number_in};
use demangle_lines::{Number, Shape, Tree};

impl<'a> Tree<Components<'a>> for Node<'a> {
    #[inline(always)]
    fn shape(self, subs: &Components<'a>) -> Shape {
        shape_of(self, subs.arena)
    }

    #[inline(always)]
    fn count(self, subs: &Components<'a>) -> usize {
        count_of(self, subs.arena)
    }

    #[inline(always)]
    fn part(self, number: usize, subs: &Components<'a>) -> Option<Node<'a>> {
        part_of(self, number, subs.arena)
    }

    #[inline(always)]
    fn printed(self, subs: &Components<'a>) -> Option<Node<'a>> {
        printed_of(self, subs.arena)
    }

    #[inline(always)]
    fn bytes<'s>(self, input: &'s [u8]) -> &'s [u8] {
        bytes_of(self, input)
    }

    #[inline(always)]
    fn plain_name<'s>(self, input: &'s [u8]) -> Option<&'s [u8]> {
        plain_name_of(self, input)
    }

    #[inline(always)]
    fn is_unqualified(self) -> bool {
        is_unqualified(self)
    }

    fn number(self) -> Number {
        number_in(self)
    }

    fn index(self) -> usize {
        index_in(self)
    }

    fn text(self) -> &'static str {
        text_of(self)
    }

    fn leaf_text(self) -> &'static str {
        leaf_text_of(self)
    }

    fn began(self) -> usize {
        began_of(self)
    }

    #[tactic(auto, unfolding(demangle_core::specs::Lookups::leaf_name))]
    fn leaf_name(self, subs: &Components<'a>) -> Option<Node<'a>> {
        found(Sought::LeafName, self, subs)
    }

    #[tactic(auto, unfolding(demangle_core::specs::Lookups::template_args))]
    fn prefix_arguments(self, subs: &Components<'a>) -> Option<Node<'a>> {
        found(Sought::PrefixArguments, self, subs)
    }

    #[tactic(auto, unfolding(demangle_core::specs::Lookups::template_args))]
    fn type_arguments(self, subs: &Components<'a>) -> Option<Node<'a>> {
        found(Sought::TypeArguments, self, subs)
    }

    #[tactic(auto, unfolding(demangle_core::specs::Lookups::is_special))]
    fn is_special(self, subs: &Components<'a>) -> bool {
        found(Sought::Special, self, subs).is_some()
    }
}
