//! The scope and the base of a printed name, by the text and the nodes that a listener was told.
#![tactic(auto)]

mod divide;
mod divided;
mod front;
mod heard;
mod mark;
mod within;

ghost use Rattle.demangle_parts_text.specs.Laws.{KeepsText, JoinsCut};

pub use divided::Divided;
pub use heard::Heard;
pub use mark::Mark;

/// The items of events that are closed have the text of the events.
pub fn keeps_text()
    ensures { KeepsText }
{}

/// Scope and `::`, where there is one, base and what is behind them are the text of the items.
pub fn joins_cut()
    ensures { JoinsCut }
{}
