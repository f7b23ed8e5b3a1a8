//! What it means that code has done an act of printing: one word for the contract of each printing function, and a
//! lemma for each item of an act, so that a line of code is proved by one term made of its calls. Nothing here runs:
//! each function is a law, and its contract is the statement.
#![tactic(auto)]

ghost use Rattle.demangle_meets.specs.Laws.{StacksSuffice, LosesByListener, LeavesFitting, CountsStay, LeavesSome};
ghost use Rattle.demangle_meets.specs.Laws.{StaysFixed, StopsExactly, TellsCalls, TellsInOrder, TellsText};

/// What a listener was told, where it tells its calls: these events and no others, in order, behind those that it told
/// before.
pub fn tells_calls()
    ensures { TellsCalls }
{}

/// Where it tells its text, the text of these events behind that which it told before.
pub fn tells_text()
    ensures { TellsText }
{}

/// Where an item is put on a stack, there are no more items than the level: stacks with room for as many items as there
/// are levels never lack any.
pub fn stacks_suffice()
    ensures { StacksSuffice }
{}

/// Where no two items have one level, none is above the line's, and the stacks have room for as many items as there are
/// levels, only the listener loses anything, and its count of failures or of refusals says so.
pub fn loses_by_listener()
    ensures { LosesByListener }
{}

/// And so it is again behind a line without trouble.
pub fn leaves_fitting()
    ensures { LeavesFitting }
{}

/// Where the listener didn't fail, its count of failures is as before, and so is that of refusals.
pub fn counts_stay()
    ensures { CountsStay }
{}

/// Without trouble the kept items and those that are set aside are as before, and of the inner items some are left.
pub fn leaves_items()
    ensures { LeavesSome }
{}

/// What is fixed stays as it is, with trouble too.
pub fn stays_fixed()
    ensures { StaysFixed }
{}

/// Where nothing is lost, printing stops for the fault of the definition, or not at all where that has none.
pub fn stops_exactly()
    ensures { StopsExactly }
{}

/// Without trouble the listener was told all events, in which each node that begins ends. At a fault it was told the
/// events before it, and then that nodes end, no more than stood open.
pub fn tells_in_order()
    ensures { TellsInOrder }
{}
