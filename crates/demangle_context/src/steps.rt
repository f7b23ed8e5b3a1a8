//! The calls of a context for lines of printing. None of them fails: the first trouble is kept, and after it the
//! listener is told nothing but that nodes end which it was told of. So each is one step from page to page.

ghost use Rattle.std.specs.Prelude.{◌≡◌, ◌<◌, ◌∷◌, [], None, Some, is_some, length, option_map, MatchOption};
ghost use Rattle.demangle_core.specs.Table.{Table};
ghost use Rattle.demangle_printing.specs.State.{Fault, Held, flagged, is_byte, is_on, no, popped, rest, spaced};
ghost use Rattle.demangle_printing.specs.State.{written, yes};
ghost use Rattle.demangle_meets.specs.Calls.{Begins, BringsBack, Ends, KeepsTop, PopsOwn, Pushes, Returns};
ghost use Rattle.demangle_meets.specs.Calls.{SetsAside, Steps, TakesNone, TakesTop};
ghost use Rattle.demangle_context.specs.Errors.{reference_fault};
ghost use Rattle.demangle_context.specs.Items.{item_at};
ghost use Rattle.demangle_context.specs.Kinds.{kind_of};
ghost use Rattle.demangle_context.specs.View.{view};
ghost use Rattle.demangle_context.specs.FlagOf.{flag_of};
ghost use Rattle.demangle_context.specs.PageOf.{page};
ghost use Rattle.demangle_context.specs.TroubleOf.{answer_of, fault_of};

use crate::context::Context;
use crate::error::DemangleError;
use crate::flag::{PrintFlag, is_on, put};
use crate::inner_items::{InnerBarrier, InnerNode};
use crate::listener::{DemangleNodeType, DemangleWrite};
use crate::trouble::{PrintFault, Trouble, full_in, reference_fault_in, refusal_in};
use demangle_text::Error;

/// An inner item of trees that refer to a table of type `S`, and what contracts see of the table.
pub trait RefersTo<S>: InnerNode {
    ghost table: { S → Table };
}

#[tactic(auto, unfolding(crate::specs::PageOf::page, crate::specs::View::view))]
impl<'a, 'w, T: RefersTo<S>, S: 'a, W: 'w + DemangleWrite> Context<'a, 'w, T, S, W> {
    /// Lines may be printed: an earlier trouble is forgotten.
    pub fn start(&mut self)
        ensures { view T.tree W.seen self.new ≡ record (view T.tree W.seen self.old) { trouble = None } }
    {
        self.trouble = None;
    }

    /// Why printing stopped, where it did.
    pub fn answer(&self) -> Result<(), DemangleError>
        ensures { result ≡ answer_of (page T.tree T.table W.seen self.now).trouble }
    {
        match self.trouble {
            None => Ok(()),
            Some(trouble) => Err(trouble.error()),
        }
    }

    /// Whether printing has stopped.
    pub fn is_stopped(&self) -> bool
        ensures { result ≡ is_some (page T.tree T.table W.seen self.now).trouble }
    {
        self.trouble.is_some()
    }

    /// One step of text.
    #[inline(always)]
    pub fn text(&mut self, text: &str)
        ensures { Steps (page T.tree T.table W.seen self.old) (page T.tree T.table W.seen self.new)
            (written text.now) }
    {
        match self.trouble {
            Some(_) => {}
            None => self.trouble = refusal_in(self.write(text)),
        }
    }

    /// A space, unless the last byte is one.
    pub fn space(&mut self)
        ensures { Steps (page T.tree T.table W.seen self.old) (page T.tree T.table W.seen self.new) spaced }
    {
        match self.trouble {
            Some(_) => {}
            None => self.trouble = refusal_in(self.ensure_space()),
        }
    }

    /// Printing stops here.
    pub fn fail(&mut self, fault: PrintFault)
        ensures { Steps (page T.tree T.table W.seen self.old) (page T.tree T.table W.seen self.new)
            (λ s. no [] (fault_of fault)) }
    {
        match self.trouble {
            Some(_) => {}
            None => self.trouble = Some(Trouble::Fault(fault)),
        }
    }

    /// Printing stops for a look-up that failed.
    pub fn fail_reference(&mut self, error: Error)
        ensures { (f : Fault) → reference_fault error ≡ Some f →
            Steps (page T.tree T.table W.seen self.old) (page T.tree T.table W.seen self.new) (λ s. no [] f) }
    {
        self.fail(reference_fault_in(error));
    }

    /// An inner item, pushed at a level.
    pub fn hold(&mut self, item: T, level: u32)
        ensures { Pushes level (page T.tree T.table W.seen self.old) (page T.tree T.table W.seen self.new)
            (T.tree item) }
    {
        match self.trouble {
            Some(_) => {}
            None => self.trouble = full_in(self.push_inner_at(item, level)),
        }
    }

    /// Pops the top item, and answers true, exactly where it was pushed at this level.
    pub fn take_own(&mut self, level: u32) -> bool
        ensures { PopsOwn level (page T.tree T.table W.seen self.old) (page T.tree T.table W.seen self.new) result }
    {
        self.pop_inner_if(level)
    }

    /// The top item, taken out; `None` exactly where none waits.
    pub fn take(&mut self) -> Option<T>
        ensures { MatchOption result
            (TakesNone (page T.tree T.table W.seen self.old) (page T.tree T.table W.seen self.new))
            (λ item. TakesTop (page T.tree T.table W.seen self.old) (page T.tree T.table W.seen self.new)
            (T.tree item)) }
    {
        self.pop_inner()
    }

    /// Pops the top item, where there is one.
    pub fn pop(&mut self)
        ensures step { Steps (page T.tree T.table W.seen self.old) (page T.tree T.table W.seen self.new)
            (λ s. yes [] (popped s)) }
        ensures inner { (page T.tree T.table W.seen self.new).inner
            ≡ rest (page T.tree T.table W.seen self.old).inner }
    {
        let _item = self.pop_inner();
    }

    /// How many items wait.
    pub fn waiting(&self) -> usize
        ensures { result ≡ length (page T.tree T.table W.seen self.now).inner }
    {
        self.inner_len()
    }

    /// The item so many from the top; `None` exactly where fewer wait.
    pub fn item(&self, from_top: usize) -> Option<T>
        ensures { option_map T.tree result ≡ item_at from_top (page T.tree T.table W.seen self.now).inner }
    {
        self.inner_at(from_top)
    }

    /// How many items are kept.
    pub fn kept(&self) -> usize
        ensures { result ≡ length (page T.tree T.table W.seen self.now).kept }
    {
        self.kept_len()
    }

    /// Keeps the top item.
    pub fn keep(&mut self)
        ensures { (h : Held _) (hs : _) → (page T.tree T.table W.seen self.old).inner ≡ h ∷ hs →
            KeepsTop (page T.tree T.table W.seen self.old) (page T.tree T.table W.seen self.new) h }
    {
        match self.trouble {
            Some(_) => {}
            None => self.trouble = full_in(self.keep_inner()),
        }
    }

    /// The items wait again that were kept since there were so many.
    pub fn unkeep(&mut self, before: usize)
        ensures { Returns before (page T.tree T.table W.seen self.old) (page T.tree T.table W.seen self.new) }
    {
        match self.trouble {
            Some(_) => {}
            None => {
                let count = self.kept_len().saturating_sub(before);
                self.trouble = full_in(self.return_kept(count));
            }
        }
    }

    /// Sets the items aside that wait.
    pub fn fence(&mut self) -> InnerBarrier
        ensures { SetsAside (page T.tree T.table W.seen self.old) (page T.tree T.table W.seen self.new) result }
    {
        self.barrier()
    }

    /// They wait again.
    pub fn unfence(&mut self, saved: InnerBarrier)
        ensures { BringsBack saved (page T.tree T.table W.seen self.old) (page T.tree T.table W.seen self.new) }
    {
        self.restore(saved);
    }

    /// A node begins; whether the listener was told so.
    pub fn begin_node(&mut self, kind: DemangleNodeType) -> bool
        ensures { Begins (page T.tree T.table W.seen self.old) (page T.tree T.table W.seen self.new)
            (kind_of kind) result }
    {
        match self.trouble {
            Some(_) => false,
            None => {
                self.push_node(kind);
                true
            }
        }
    }

    /// It ends: the listener is told so where it was told that it began.
    pub fn end_node(&mut self, was_told: bool)
        ensures { Ends was_told (page T.tree T.table W.seen self.old) (page T.tree T.table W.seen self.new) }
    {
        match self.trouble {
            None => self.pop_node(),
            Some(_) => {
                if was_told {
                    self.pop_node();
                }
            }
        }
    }

    /// Whether a flag is on.
    pub fn is_on(&self, flag: PrintFlag) -> bool
        ensures { result ≡ is_on (flag_of flag) (page T.tree T.table W.seen self.now).flags }
    {
        is_on(flag, self.flags)
    }

    /// Turns a flag on or off.
    #[inline(always)]
    pub fn turn(&mut self, flag: PrintFlag, on: bool)
        ensures { Steps (page T.tree T.table W.seen self.old) (page T.tree T.table W.seen self.new)
            (λ s. yes [] (flagged (flag_of flag) on s)) }
    {
        self.flags = put(flag, on, self.flags);
    }

    /// The last source name that was written.
    pub fn name(&mut self, name: &'a str)
        ensures { Steps (page T.tree T.table W.seen self.old) (page T.tree T.table W.seen self.new)
            (λ s. yes [] (record s { source = Some name.entry.now })) }
    {
        self.set_source_name(name);
    }

    /// Whether the last byte is this one, of ASCII.
    pub fn last_is(&self, c: char) -> bool
        requires { c < 128 }
        ensures { result ≡ is_byte c (page T.tree T.table W.seen self.now).last }
    {
        self.ends_in(c)
    }
}
