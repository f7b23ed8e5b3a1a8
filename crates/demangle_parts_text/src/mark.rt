//! What a listener keeps of a call.

ghost use Rattle.std.specs.Prelude.{◌≡◌, ◌++◌, ◌∷◌, [], true, false, length, string_bytes};
ghost use Rattle.std.specs.Str.{IsUtf8};
ghost use Rattle.demangle_context.specs.Kinds.{kind_of};
ghost use Rattle.demangle_parts_text.specs.Walk.{kind_code};

use demangle_context::DemangleNodeType;

/// A call: a piece of so many bytes of text, a node begins, the last node that began ends.
#[derive(Clone, Copy, Debug)]
pub enum Mark {
    /// So many bytes of text.
    Piece(usize),
    /// A node of this kind begins.
    Begins(DemangleNodeType),
    /// The last node that began ends.
    Ends,
}

impl Mark {
    ghost use Rattle.demangle_context.specs.Kinds.{kind_of};
    ghost use Rattle.demangle_parts_text.specs.MarkOf.{begins_kind, mark_ends};

    /// Whether a node of this kind begins.
    pub(crate) fn begins(&self, kind: DemangleNodeType) -> bool
        ensures { result ≡ begins_kind (kind_of kind) self.now }
    {
        match self {
            Mark::Begins(found) => code(*found) == code(kind),
            _ => false,
        }
    }

    /// Whether a node ends.
    pub(crate) fn ends(&self) -> bool
        ensures { result ≡ mark_ends self.now }
    {
        matches!(self, Mark::Ends)
    }
}

/// The number of a kind of node.
fn code(kind: DemangleNodeType) -> u8
    ensures { result ≡ kind_code (kind_of kind) }
{
    match kind {
        DemangleNodeType::Prefix => 0,
        DemangleNodeType::TemplatePrefix => 1,
        DemangleNodeType::TemplateArgs => 2,
        DemangleNodeType::UnqualifiedName => 3,
        DemangleNodeType::TemplateParam => 4,
        DemangleNodeType::Decltype => 5,
        DemangleNodeType::DataMemberPrefix => 6,
        DemangleNodeType::NestedName => 7,
        DemangleNodeType::VirtualTable => 8,
    }
}

/// The text, and a mark for each call.
#[derive(Drop)]
pub(crate) struct Kept {
    pub(crate) text: String,
    pub(crate) marks: Vec<Mark>,
}

/// Keeps a piece, and answers whether there was memory for it.
pub(crate) fn keep(kept: &mut Kept, piece: &str) -> bool
    ensures utf8 { IsUtf8 piece.now }
    ensures text { result ≡ true → string_bytes kept.new.text ≡ string_bytes kept.old.text ++ piece.now }
    ensures marks { result ≡ true
        → kept.new.marks.items ≡ kept.old.marks.items ++ (Mark.Piece (length piece.now) ∷ []) }
    ensures other_text { result ≡ false → string_bytes kept.new.text ≡ string_bytes kept.old.text }
    ensures other_marks { result ≡ false → kept.new.marks.items ≡ kept.old.marks.items }
{
    if kept
        .marks
        .push(Mark::Piece(piece.as_bytes().len()))
        .is_err()
    {
        return false;
    }
    if kept.text.push_str(piece).is_err() {
        kept.marks.pop();
        return false;
    }
    true
}
