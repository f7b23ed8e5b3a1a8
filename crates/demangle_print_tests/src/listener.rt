//! A listener that keeps what it is told.

ghost use Rattle.std.specs.Prelude.{None};

use demangle_scope::{DemangleNodeType, DemangleWrite, SinkFault};
use std::alloc::Global;

/// A listener that keeps the text, with `‹` and the kind where a node begins and `›` where one ends. It refuses one
/// write; what it is told behind that it doesn't keep, but judges.
#[derive(Drop)]
pub struct Listener {
    told: String,
    writes: usize,
    fails_at: usize,
    refuses_at: usize,
    is_stopped: bool,
    open: usize,
    is_in_order: bool,
    faults: u64,
    refusals: u64,
}

fn begin_of(kind: DemangleNodeType) -> &'static str {
    match kind {
        DemangleNodeType::Prefix => "‹Prefix ",
        DemangleNodeType::TemplatePrefix => "‹TemplatePrefix ",
        DemangleNodeType::TemplateArgs => "‹TemplateArgs ",
        DemangleNodeType::UnqualifiedName => "‹UnqualifiedName ",
        DemangleNodeType::TemplateParam => "‹TemplateParam ",
        DemangleNodeType::Decltype => "‹Decltype ",
        DemangleNodeType::DataMemberPrefix => "‹DataMemberPrefix ",
        DemangleNodeType::NestedName => "‹NestedName ",
        DemangleNodeType::VirtualTable => "‹VirtualTable ",
    }
}

impl Listener {
    /// A listener that refuses nothing.
    pub fn new(alloc: Global) -> Listener {
        Listener {
            told: String::new(alloc),
            writes: 0,
            fails_at: usize::MAX,
            refuses_at: usize::MAX,
            is_stopped: false,
            open: 0,
            is_in_order: true,
            faults: 0,
            refusals: 0,
        }
    }

    /// A listener that refuses the write of this number, from 0.
    pub fn refusing(alloc: Global, write: usize, cause: SinkFault) -> Listener {
        let mut listener = Listener::new(alloc);
        match cause {
            SinkFault::Failed => listener.fails_at = write,
            SinkFault::OutOfMemory => listener.refuses_at = write,
        }
        listener
    }

    /// What was told before a write was refused.
    pub fn told(&self) -> &str {
        self.told.as_str()
    }

    /// Whether no piece was empty, no node ended that hadn't begun, and behind a refusal nodes ended alone.
    pub fn is_in_order(&self) -> bool {
        self.is_in_order
    }

    /// Whether each node that began has ended.
    pub fn is_closed(&self) -> bool {
        self.open == 0
    }
}

impl DemangleWrite for Listener {
    ghost seen = { λ s. record { text = None; calls = None; faults = s.faults; refusals = s.refusals } };

    fn push_demangle_node(&mut self, kind: DemangleNodeType) {
        self.open = self.open.saturating_add(1);
        let is_kept = self.told.push_str(begin_of(kind)).is_ok();
        self.is_in_order = self.is_in_order && is_kept && !self.is_stopped;
    }

    fn write_string(&mut self, s: &str) -> Result<(), SinkFault> {
        self.is_in_order = self.is_in_order && !s.is_empty() && !self.is_stopped;
        let write = self.writes;
        self.writes = write.saturating_add(1);
        if write == self.fails_at {
            self.is_stopped = true;
            self.faults = self.faults.saturating_add(1);
            return Err(SinkFault::Failed);
        }
        let is_kept = write != self.refuses_at && self.told.push_str(s).is_ok();
        if !is_kept {
            self.is_stopped = true;
            self.refusals = self.refusals.saturating_add(1);
            return Err(SinkFault::OutOfMemory);
        }
        Ok(())
    }

    fn pop_demangle_node(&mut self) {
        if self.open == 0 {
            self.is_in_order = false;
            return;
        }
        self.open -= 1;
        if !self.is_stopped {
            let is_kept = self.told.push_str("›").is_ok();
            self.is_in_order = self.is_in_order && is_kept;
        }
    }
}
