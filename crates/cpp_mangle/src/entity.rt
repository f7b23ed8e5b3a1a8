//! Entities: what a name refers to again where it repeats.

ghost use Rattle.std.specs.Prelude.{◌≡◌, ◌∷◌, [], ◌==◌, None, map};
ghost use Rattle.std.specs.Option.{option_map};
ghost use Rattle.cpp_mangle.specs.Declarations.{modifier_word, modifier_code, same_type, place, longest_behind};
ghost use Rattle.cpp_mangle.specs.Plain.{plain_modifier, plain_entity};

use crate::decl_type::DeclType;
use crate::ident::Ident;

/// What modifies a type.
#[derive(Clone, Copy)]
pub(crate) enum Modifier {
    Pointer,
    Ref,
    RvalueRef,
    Const,
}

impl Modifier {
    /// Its letter in a name (ABI section 5.1.5).
    pub(crate) fn letter(self) -> u8
        ensures { result ∷ [] ≡ modifier_word (plain_modifier self) }
    {
        match self {
            Modifier::Pointer => b'P',
            Modifier::Ref => b'R',
            Modifier::RvalueRef => b'O',
            Modifier::Const => b'K',
        }
    }

    /// Whether both are the same.
    fn is_same(self, other: Modifier) -> bool
        ensures { result ≡ (modifier_code (plain_modifier self) == modifier_code (plain_modifier other)) }
    {
        matches!(
            (self, other),
            (Modifier::Pointer, Modifier::Pointer)
                | (Modifier::Ref, Modifier::Ref)
                | (Modifier::RvalueRef, Modifier::RvalueRef)
                | (Modifier::Const, Modifier::Const)
        )
    }
}

/// What a name refers to again where it repeats: a front of a path, or a modified type by its outermost modifier and
/// the type that this stands on.
#[derive(Clone, Copy)]
pub(crate) enum Entity<'a> {
    Front(&'a [Ident]),
    Modified(Modifier, &'a DeclType),
}

impl Entity<'_> {
    /// Whether both are the same.
    fn is_same(&self, other: &Entity<'_>) -> bool
        ensures { result ≡ same_type (plain_entity self.now) (plain_entity other.now) }
    {
        match self {
            Entity::Front(a) => match other {
                Entity::Front(b) => *a == *b,
                Entity::Modified(_, _) => false,
            },
            Entity::Modified(m, a) => match other {
                Entity::Front(_) => false,
                Entity::Modified(n, b) => m.is_same(*n) && **a == **b,
            },
        }
    }
}

/// Where an entity stands among those so far.
pub(crate) fn place(entity: &Entity<'_>, known: &[Entity<'_>]) -> Option<usize>
    ensures { result ≡ place (plain_entity entity.now) (map plain_entity known.now) }
{
    for (i, one) in known.iter().enumerate() {
        if entity.is_same(one) {
            return Some(i);
        }
    }
    None
}

/// The longest proper front of a path among the entities so far: its place, and the parts behind it.
pub(crate) fn longest_front<'p>(
    parts: &'p [Ident],
    known: &[Entity<'_>],
) -> Option<(usize, &'p [Ident])>
    ensures { option_map (λ x. (x.0, x.1.now)) result ≡ longest_behind [] parts.now (map plain_entity known.now) None }
{
    for end in (1..parts.len()).rev() {
        if let Some(found) = place(&Entity::Front(&parts[..end]), known) {
            return Some((found, &parts[end..]));
        }
    }
    None
}
