//! The context of a printing: what is printed, to whom, and how far it has come.

ghost use Rattle.std.specs.Prelude.{◌≡◌, ◌+◌, ◌<◌, ◌↔◌, true, false, Some, Ok, IsOk, IsErr, IfOk, IfErr, OnOk};
ghost use Rattle.std.specs.Prelude.{OnErr, IsSomeAnd, length, option_map};
ghost use Rattle.demangle_printing.specs.State.{has_room, less_room, is_own_item, is_byte};
ghost use Rattle.demangle_context.specs.Kinds.{kind_of};
ghost use Rattle.demangle_meets.specs.Seen.{EndsIn, begins, ends};
ghost use Rattle.demangle_context.specs.Items.{HasRoom, one_deeper, one_less_deep, item_at, with_pushed};
ghost use Rattle.demangle_context.specs.Items.{with_pushed_at, without_top, without_top_if, with_top_kept};
ghost use Rattle.demangle_context.specs.Items.{with_returned, set_aside, no_items, brought_back};
ghost use Rattle.demangle_context.specs.ItemsOf.{items_of};
ghost use Rattle.demangle_context.specs.View.{view, first_view, with_items, state_of};
ghost use Rattle.demangle_context.specs.Calls.{Writing, Spacing, Announces, IsReadyToHold};

use crate::error::DemangleError;
use crate::inner_items::{InnerBarrier, InnerItems, InnerNode};
use crate::listener::{DemangleNodeType, DemangleWrite};
use crate::options::DemangleOptions;
use crate::trouble::Trouble;
use std::alloc::Global;

/// What lines of printing tell each other.
#[derive(Clone, Copy, Debug, PartialEq, Eq)]
pub struct DemangleFlags {
    /// In the signature of a closure, where a template parameter is `auto:1`.
    pub lambda: bool,
    /// The next prefix is that of template arguments.
    pub tprefix: bool,
    /// The next prefix is that of a nested name.
    pub nprefix: bool,
    /// A pack was printed: there are no dots behind its expansion.
    pub pack: bool,
    /// The next parameters have an explicit object.
    pub object: bool,
    /// Functions have their parameters.
    pub params: bool,
    /// Function templates have their result.
    pub returns: bool,
    /// Literals have their types.
    pub littypes: bool,
}

/// A printing: the table and the input that the nodes refer to, the listener, and the state. It lives no longer than
/// the nodes, and no longer than the listener. The original's `DemangleContext`, for any type of inner items.
pub struct Context<'a, 'w, T: Copy, S: 'a, W: 'w> {
    items: InnerItems<T>,
    subs: &'a S,
    input: &'a [u8],
    out: &'w mut W,
    last: Option<char>,
    source: Option<&'a str>,
    /// What lines of printing tell each other.
    pub flags: DemangleFlags,
    room: Option<usize>,
    /// The first trouble that a step of a line met.
    pub(crate) trouble: Option<Trouble>,
}

/// The last character of a text, `None` where it is empty.
#[inline(always)]
fn last_char(s: &str) -> Option<char>
    ensures { 0 < length s.now → IsSomeAnd result (EndsIn s.now) }
{
    if let Some(byte) = s.as_bytes().last() {
        if *byte < 128 {
            return Some(*byte as char);
        }
    }
    s.chars().next_back()
}

/// The room behind so many bytes. `TooLong` is the one refusal, exactly where there is less.
fn room_behind(room: Option<usize>, length: usize) -> Result<Option<usize>, DemangleError>
    ensures room { OnOk result (has_room room length ≡ true) }
    ensures less { IfOk result (λ left. left ≡ less_room room length) }
    ensures too_long { IfErr result (λ e. (e ≡ DemangleError.TooLong) × (has_room room length ≡ false)) }
{
    match room {
        None => Ok(None),
        Some(bytes) => {
            if length > bytes {
                return Err(DemangleError::TooLong);
            }
            Ok(Some(bytes - length))
        }
    }
}

#[tactic(auto, unfolding(crate::specs::View::view))]
impl<'a, 'w, T: InnerNode, S: 'a, W: 'w + DemangleWrite> Context<'a, 'w, T, S, W> {
    /// A printing of which nothing is printed, with stacks that have room for as many items as there are levels, but at
    /// most for 65,536. `OutOfMemory` is the one refusal.
    pub fn new(
        alloc: Global,
        subs: &'a S,
        input: &'a [u8],
        options: DemangleOptions,
        out: &'w mut W,
    ) -> Result<Context<'a, 'w, T, S, W>, DemangleError>
        ensures begun { IfOk result (λ c. view T.tree W.seen c
            ≡ first_view options subs.entry.now input.entry.now (W.seen out.old) out.entry.ghost_name) }
        ensures refused { IfErr result (λ e. e ≡ DemangleError.OutOfMemory) }
    {
        let limit = options.limit();
        match InnerItems::new(alloc, limit) {
            Ok(items) => Ok(Context::begin(items, subs, input, options, out)),
            Err(_) => Err(DemangleError::OutOfMemory),
        }
    }

    /// The same with stacks that were made before, for the limit of the options. It takes no memory.
    pub fn begin(
        items: InnerItems<T>,
        subs: &'a S,
        input: &'a [u8],
        options: DemangleOptions,
        out: &'w mut W,
    ) -> Context<'a, 'w, T, S, W>
        requires { items_of T.tree items ≡ no_items options.limit }
        ensures { view T.tree W.seen result
            ≡ first_view options subs.entry.now input.entry.now (W.seen out.old) out.entry.ghost_name }
    {
        let (params, returns, littypes) = options.shows();
        Context {
            items,
            subs,
            input,
            out,
            last: None,
            source: None,
            flags: DemangleFlags {
                lambda: false,
                tprefix: false,
                nprefix: false,
                pack: false,
                object: false,
                params,
                returns,
                littypes,
            },
            room: options.output_bytes(),
            trouble: None,
        }
    }

    /// Ends the printing and gives the listener back.
    pub fn end(self) -> &'w mut W
        ensures same_reference { result.ghost_name ≡ (view T.tree W.seen self.entry).name }
        ensures seen { W.seen result.now ≡ (view T.tree W.seen self.entry).seen }
    {
        let Context {
            items,
            subs: _subs,
            input: _input,
            out,
            last: _last,
            source: _source,
            flags: _flags,
            room: _room,
            trouble: _trouble,
        } = self;
        drop(items);
        out
    }

    /// Ends the printing and gives the stacks back, empty but with their room, for another one; and the listener.
    pub fn end_with_items(self) -> (InnerItems<T>, &'w mut W)
        ensures items { items_of T.tree result.0 ≡ no_items (view T.tree W.seen self.entry).items.limit }
        ensures same_reference { result.1.ghost_name ≡ (view T.tree W.seen self.entry).name }
        ensures seen { W.seen result.1.now ≡ (view T.tree W.seen self.entry).seen }
    {
        let Context {
            mut items,
            subs: _subs,
            input: _input,
            out,
            last: _last,
            source: _source,
            flags: _flags,
            room: _room,
            trouble: _trouble,
        } = self;
        items.clear();
        (items, out)
    }

    /// The level, which is below the limit.
    pub fn recursion_level(&self) -> u32
        ensures value { result ≡ (view T.tree W.seen self.now).items.level }
        ensures below { result < (view T.tree W.seen self.now).items.limit }
    {
        self.items.level()
    }

    /// The limit on levels.
    pub fn recursion_limit(&self) -> u32
        ensures { result ≡ (view T.tree W.seen self.now).items.limit }
    {
        self.items.limit()
    }

    /// Raises the level. `TooMuchRecursion` is the one refusal, exactly where the level plus 1 is the limit.
    pub fn enter(&mut self) -> Result<(), DemangleError>
        ensures deeper { OnOk result (view T.tree W.seen self.new
            ≡ with_items one_deeper (view T.tree W.seen self.old)) }
        ensures refused { IfErr result (λ e. e ≡ DemangleError.TooMuchRecursion) }
        ensures unchanged { OnErr result (view T.tree W.seen self.new ≡ view T.tree W.seen self.old) }
        ensures exactly { IsErr result ↔ ((view T.tree W.seen self.old).items.level + 1
            ≡ (view T.tree W.seen self.old).items.limit) }
    {
        if !self.items.enter() {
            return Err(DemangleError::TooMuchRecursion);
        }
        Ok(())
    }

    /// Lowers the level.
    pub fn leave(&mut self)
        requires { 0 < (view T.tree W.seen self.old).items.level }
        ensures { view T.tree W.seen self.new ≡ with_items one_less_deep (view T.tree W.seen self.old) }
    {
        self.items.leave();
    }

    /// Writes a text: the listener is told it in one piece, then its last character is kept and the room falls by its
    /// length. An empty text does nothing. `TooLong` comes exactly where the text is longer than the room, before the
    /// listener is asked; `Sink` and `OutOfMemory` only where the listener's count of them rose.
    #[inline(always)]
    pub fn write(&mut self, s: &str) -> Result<(), DemangleError>
        ensures { Writing (view T.tree W.seen self.old) (view T.tree W.seen self.new) result s.now }
    {
        if s.is_empty() {
            return Ok(());
        }
        match room_behind(self.room, s.len()) {
            Err(error) => Err(error),
            Ok(room) => match self.out.write_string(s) {
                Err(refusal) => Err(DemangleError::from(refusal)),
                Ok(()) => {
                    self.room = room;
                    self.last = last_char(s);
                    Ok(())
                }
            },
        }
    }

    /// Writes a space, unless the last character is one.
    pub fn ensure_space(&mut self) -> Result<(), DemangleError>
        ensures { Spacing (view T.tree W.seen self.old) (view T.tree W.seen self.new) result }
    {
        if self.ends_in(' ') {
            return Ok(());
        }
        self.write(" ")
    }

    /// Whether the last character is this one, of ASCII: whether the last byte is.
    pub fn ends_in(&self, c: char) -> bool
        requires { c < 128 }
        ensures { result ≡ is_byte c (state_of (view T.tree W.seen self.now)).last }
    {
        match self.last {
            None => false,
            Some(last) => last == c,
        }
    }

    /// The last character that was written; `None` exactly where nothing was.
    pub fn last_char(&self) -> Option<char>
        ensures { result ≡ (view T.tree W.seen self.now).last_char }
    {
        self.last
    }

    /// Pushes an item at the level. Up to a limit of 65,536 it doesn't fail where no two items have one level, be they
    /// set aside, waiting or kept, and the level is above all of theirs. `OutOfMemory` is the one refusal.
    pub fn push_inner(&mut self, item: T) -> Result<(), DemangleError>
        ensures pushed { OnOk result (view T.tree W.seen self.new
            ≡ with_items (with_pushed (T.tree item)) (view T.tree W.seen self.old)) }
        ensures refused { IfErr result (λ e. e ≡ DemangleError.OutOfMemory) }
        ensures unchanged { OnErr result (view T.tree W.seen self.new ≡ view T.tree W.seen self.old) }
        ensures room { HasRoom (view T.tree W.seen self.old).items → IsOk result }
        ensures fits { IsReadyToHold (view T.tree W.seen self.old) → IsOk result }
    {
        let level = self.items.level();
        self.push_inner_at(item, level)
    }

    /// Pushes an item at a level, which a line may hold by value. It fails as `push_inner` may.
    pub fn push_inner_at(&mut self, item: T, level: u32) -> Result<(), DemangleError>
        ensures pushed { OnOk result (view T.tree W.seen self.new
            ≡ with_items (with_pushed_at level (T.tree item)) (view T.tree W.seen self.old)) }
        ensures refused { IfErr result (λ e. e ≡ DemangleError.OutOfMemory) }
        ensures unchanged { OnErr result (view T.tree W.seen self.new ≡ view T.tree W.seen self.old) }
        ensures room { HasRoom (view T.tree W.seen self.old).items → IsOk result }
    {
        match self.items.push(item, level) {
            Ok(()) => Ok(()),
            Err(_) => Err(DemangleError::OutOfMemory),
        }
    }

    /// The top item, taken out; `None` exactly where none waits.
    pub fn pop_inner(&mut self) -> Option<T>
        ensures after { view T.tree W.seen self.new ≡ with_items without_top (view T.tree W.seen self.old) }
        ensures value { option_map T.tree result ≡ item_at 0 (view T.tree W.seen self.old).items.inner }
    {
        self.items.pop()
    }

    /// Takes the top item out and answers true, exactly where it was pushed at this level.
    pub fn pop_inner_if(&mut self, level: u32) -> bool
        ensures value { result ≡ is_own_item level (view T.tree W.seen self.old).items.inner }
        ensures after { view T.tree W.seen self.new
            ≡ with_items (without_top_if result) (view T.tree W.seen self.old) }
    {
        self.items.pop_if(level)
    }

    /// The item so many from the top; `None` exactly where fewer wait.
    pub fn inner_at(&self, from_top: usize) -> Option<T>
        ensures { option_map T.tree result ≡ item_at from_top (view T.tree W.seen self.now).items.inner }
    {
        self.items.at(from_top)
    }

    /// How many items wait.
    pub fn inner_len(&self) -> usize
        ensures { result ≡ length (view T.tree W.seen self.now).items.inner }
    {
        self.items.len()
    }

    /// Keeps the top item with its level, where there is one. It fails where `push_inner` may.
    pub fn keep_inner(&mut self) -> Result<(), DemangleError>
        ensures kept { OnOk result (view T.tree W.seen self.new
            ≡ with_items with_top_kept (view T.tree W.seen self.old)) }
        ensures refused { IfErr result (λ e. e ≡ DemangleError.OutOfMemory) }
        ensures unchanged { OnErr result (view T.tree W.seen self.new ≡ view T.tree W.seen self.old) }
        ensures room { HasRoom (view T.tree W.seen self.old).items → IsOk result }
        ensures fits { IsReadyToHold (view T.tree W.seen self.old) → IsOk result }
    {
        match self.items.keep() {
            Ok(()) => Ok(()),
            Err(_) => Err(DemangleError::OutOfMemory),
        }
    }

    /// How many items are kept.
    pub fn kept_len(&self) -> usize
        ensures { result ≡ length (view T.tree W.seen self.now).items.kept }
    {
        self.items.kept_len()
    }

    /// The last so many kept items wait again with their levels, the last kept one lowest; all of them, where there are
    /// fewer. It fails where `push_inner` may.
    pub fn return_kept(&mut self, count: usize) -> Result<(), DemangleError>
        ensures returned { OnOk result (view T.tree W.seen self.new
            ≡ with_items (with_returned count) (view T.tree W.seen self.old)) }
        ensures refused { IfErr result (λ e. e ≡ DemangleError.OutOfMemory) }
        ensures unchanged { OnErr result (view T.tree W.seen self.new ≡ view T.tree W.seen self.old) }
        ensures room { HasRoom (view T.tree W.seen self.old).items → IsOk result }
        ensures fits { IsReadyToHold (view T.tree W.seen self.old) → IsOk result }
    {
        match self.items.return_kept(count) {
            Ok(()) => Ok(()),
            Err(_) => Err(DemangleError::OutOfMemory),
        }
    }

    /// Sets the waiting items aside.
    pub fn barrier(&mut self) -> InnerBarrier
        ensures after { view T.tree W.seen self.new ≡ with_items set_aside (view T.tree W.seen self.old) }
        ensures before { result ≡ length (view T.tree W.seen self.old).items.aside }
    {
        self.items.barrier()
    }

    /// Lets the items wait again that the last barrier set aside; those that wait now are dropped.
    pub fn restore(&mut self, saved: InnerBarrier)
        ensures { view T.tree W.seen self.new
            ≡ with_items (brought_back saved) (view T.tree W.seen self.old) }
    {
        self.items.restore(saved);
    }

    /// The table that the nodes refer to.
    pub fn subs(&self) -> &'a S
        ensures { result.now ≡ (view T.tree W.seen self.now).subs }
    {
        self.subs
    }

    /// The input that the nodes refer to.
    pub fn input(&self) -> &'a [u8]
        ensures { result.now ≡ (view T.tree W.seen self.now).input }
    {
        self.input
    }

    /// The source name; `None` exactly where none was set.
    pub fn source_name(&self) -> Option<&'a str>
        ensures { option_map (λ x. x.now) result ≡ (view T.tree W.seen self.now).source }
    {
        self.source
    }

    /// Sets the source name.
    pub fn set_source_name(&mut self, name: &'a str)
        ensures { view T.tree W.seen self.new
            ≡ record (view T.tree W.seen self.old) { source = Some name.entry.now } }
    {
        self.source = Some(name);
    }

    /// Tells the listener that a node begins.
    pub fn push_node(&mut self, kind: DemangleNodeType)
        ensures { Announces (view T.tree W.seen self.old) (view T.tree W.seen self.new) (begins (kind_of kind)) }
    {
        self.out.push_demangle_node(kind);
    }

    /// Tells the listener that the last node that began ends.
    pub fn pop_node(&mut self)
        ensures { Announces (view T.tree W.seen self.old) (view T.tree W.seen self.new) ends }
    {
        self.out.pop_demangle_node();
    }
}

impl<'a, 'w, T: Copy, S: 'a, W: 'w> Drop for Context<'a, 'w, T, S, W> {
    fn drop(self) {
        let Context {
            items: _items,
            subs: _subs,
            input: _input,
            out: _out,
            last: _last,
            source: _source,
            flags: _flags,
            room: _room,
            trouble: _trouble,
        } = self;
    }
}
