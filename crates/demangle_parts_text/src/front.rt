//! What stands at a place in the text that a listener keeps.

ghost use Rattle.std.specs.Prelude.{◌≡◌, true, false, length};
ghost use Rattle.demangle_parts_text.specs.Heard.{sizes};
ghost use Rattle.demangle_parts_text.specs.Marks.{all_end, begin_chars};

use crate::mark::Mark;
use crate::within::{node_within, pieces_at};
use demangle_context::DemangleNodeType;

/// The text from a place on, and the marks from there on. Each node ends that begins there, and each piece of the text
/// begins with a character.
#[derive(Clone, Copy)]
pub(crate) struct Front<'a> {
    pub(crate) text: &'a [u8],
    pub(crate) marks: &'a [Mark],
    pub ghost whole: { sizes marks.now ≡ length text.now },
    pub ghost all_end: { all_end marks.now ≡ true },
    pub ghost characters: { begin_chars false text.now marks.now ≡ true },
}

impl<'a> Front<'a> {
    ghost use Rattle.std.specs.Prelude.{◌≤◌, take};
    ghost use Rattle.demangle_context.specs.Kinds.{kind_of};
    ghost use Rattle.demangle_parts_text.specs.Fronts.{Enters, Leaves, NodeAt, TextAt, here};
    ghost use Rattle.demangle_parts_text.specs.Marks.{is_end};
    ghost use Rattle.demangle_parts_text.specs.Walk.{is_none};

    /// The first bytes of the text.
    pub(crate) fn first(self, bytes: usize) -> &'a [u8]
        requires { bytes ≤ length self.text.now }
        ensures { result.now ≡ take bytes self.entry.text.now }
    {
        let (first, _) = self.text.split_at(bytes);
        first
    }

    /// How many bytes of text stand here before the next node begins or ends, and what is behind them.
    pub(crate) fn text_at(self) -> (usize, Front<'a>)
        ensures { TextAt self.entry result.0 result.1 }
    {
        let (count, bytes) = pieces_at(self.marks);
        let (_, text) = self.text.split_at(bytes);
        let (_, marks) = self.marks.split_at(count);
        (bytes, Front { text, marks })
    }

    /// What is within the node that begins here; `None` where none of this kind does.
    pub(crate) fn enter(self, kind: DemangleNodeType) -> Option<Front<'a>>
        ensures { Enters (kind_of kind) self.entry result }
    {
        match self.marks.split_first() {
            None => None,
            Some((mark, marks)) => {
                if !mark.begins(kind) {
                    return None;
                }
                Some(Front {
                    text: self.text,
                    marks,
                })
            }
        }
    }

    /// How many bytes stand in the node that begins here, and what is behind it; `None` where none of this kind does.
    pub(crate) fn node_at(self, kind: DemangleNodeType) -> Option<(usize, Front<'a>)>
        ensures { NodeAt (kind_of kind) self.entry result }
    {
        match self.enter(kind) {
            None => None,
            Some(within) => {
                let (count, bytes) = node_within(within.marks);
                let (_, text) = within.text.split_at(bytes);
                let (_, marks) = within.marks.split_at(count + 1);
                Some((bytes, Front { text, marks }))
            }
        }
    }

    /// Whether the node in which it stands ends here, or all does.
    pub(crate) fn is_at_end(self) -> bool
        ensures value { result ≡ is_end self.entry.marks.now }
        ensures exactly { result ≡ is_none (here self.entry) }
    {
        match self.marks.split_first() {
            None => true,
            Some((mark, _)) => mark.ends(),
        }
    }

    /// What is behind the end of a node; `None` where none ends here.
    pub(crate) fn leave(self) -> Option<Front<'a>>
        ensures { Leaves self.entry result }
    {
        match self.marks.split_first() {
            None => None,
            Some((mark, marks)) => {
                if !mark.ends() {
                    return None;
                }
                Some(Front {
                    text: self.text,
                    marks,
                })
            }
        }
    }
}
