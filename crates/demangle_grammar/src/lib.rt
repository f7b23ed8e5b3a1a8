//! The grammar of mangled names as data, its ordered reading, and what holds of every reading. Nothing here runs:
//! each function is a law, and its contract is the statement. docs/GRAMMAR.md leads through the definitions.
#![tactic(auto)]

ghost use Rattle.demangle_grammar.specs.Laws.{Spells, GoesOn, IsFit, AddsComponents, IsSound, RefersBack, ReadsSound};
ghost use Rattle.demangle_grammar.specs.Laws.{FindsSound, NameIsSound, SoundRefers, FollowsReferences};
ghost use Rattle.demangle_grammar.specs.Laws.{ExpandsEntries, ExpandsAll, Ends, HasNoLimit, IsLimited, IsIdle};
ghost use Rattle.demangle_grammar.specs.Laws.{ReadsCores, ReadsCode, CompletesPointer, CompletesPrefixes, GivesBack};
ghost use Rattle.demangle_grammar.specs.Laws.{TakesByte, NoLonger, KeepsIndex};

/// A tree that was read spells just the bytes that were read.
pub fn spells()
    ensures { Spells }
{}

/// The index goes with the bytes of the tree.
pub fn goes_on()
    ensures { GoesOn }
{}

/// A tree that was read fits the rows: a check on the finished tree, with no order of alternatives, no level and no
/// trial.
pub fn fits()
    ensures { IsFit }
{}

/// The entries behind a reading are the old ones, followed by the cores of the tree's components in order of
/// completion.
pub fn adds_components()
    ensures { AddsComponents }
{}

/// Components are numbered by their positions, and each reference is to one that was completed before it.
pub fn is_sound()
    ensures { IsSound }
{}

/// Entries refer to earlier entries alone, and the core that was read to entries that are there.
pub fn refers_back()
    ensures { RefersBack }
{}

/// What is read in an input, from entries that are sound for it, is sound for it, as are the entries behind the
/// reading: each place lies in the input and holds bytes that its row reads, each function type has a result, each
/// entry is of its kind.
pub fn reads_sound()
    ensures { ReadsSound }
{}

/// What the reading in the program's form finds in an input, from a table that is sound for it, is sound for it.
pub fn finds_sound()
    ensures { FindsSound }
{}

/// What is found at the front of an input, with no components before it, is sound for the input: as a symbol can
/// promise.
pub fn name_is_sound()
    ensures { NameIsSound }
{}

/// A node and a table that are sound for an input are sound in their references.
pub fn sound_refers()
    ensures { SoundRefers }
{}

/// Where references are sound, expanding follows each of them: more steps than there are entries change nothing.
pub fn follows_references()
    ensures { FollowsReferences }
{}

/// In place of a reference and its handle stands the expanded tree of its entry in the node of its kind.
pub fn expands_entries()
    ensures { ExpandsEntries }
{}

/// Where each entry is a component's node, no reference leads to nothing.
pub fn expands_all()
    ensures { ExpandsAll }
{}

/// The components of the tree of `P1a` are the class type and then the pointer.
pub fn completes_pointer()
    ensures { CompletesPointer }
{}

/// Those of `_ZN1a1bEv` are the prefix `a` in the first list and `a::b` in the second.
pub fn completes_prefixes()
    ensures { CompletesPrefixes }
{}

/// A reading with no limit is never refused for its depth.
pub fn ends()
    ensures { Ends }
{}

/// A reading under a limit that isn't refused for its depth is the reading with no limit.
pub fn has_no_limit()
    ensures { HasNoLimit }
{}

/// A reading is refused for its depth just where the one with no limit reaches the limit.
pub fn is_limited()
    ensures { IsLimited }
{}

/// Where the next byte isn't one with which a row can begin, the row is refused, and `idle` says how deep it goes.
pub fn is_idle()
    ensures { IsIdle }
{}

/// A reading of cores is the reading of trees, and then their cores.
pub fn reads_cores()
    ensures { ReadsCores }
{}

/// The reading in the program's form is the reading of cores.
pub fn reads_code()
    ensures { ReadsCode }
{}

/// A cut back to the lengths before a reading gives the old entries back.
pub fn gives_back()
    ensures { GivesBack }
{}

/// A row that has no empty spelling takes a byte.
pub fn takes_byte()
    ensures { TakesByte }
{}

/// Nothing is left that wasn't there before.
pub fn no_longer()
    ensures { NoLonger }
{}

/// The index goes with the bytes that were taken.
pub fn keeps_index()
    ensures { KeepsIndex }
{}
