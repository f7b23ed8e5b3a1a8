//! Laws on the names of all declarations.

ghost use Rattle.cpp_mangle.specs.Laws.{AreShown, AreNumbered};

/// The name of each declaration is shown as the declaration's text.
pub fn names_are_shown()
    ensures { AreShown }
{}

/// The name of each declaration has as many numbered components as the declaration has entities, and each is shown as
/// its entity's text.
pub fn components_are_entities()
    ensures { AreNumbered }
{}
