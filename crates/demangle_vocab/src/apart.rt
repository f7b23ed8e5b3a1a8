//! That the words of a table can be told apart.

ghost use Rattle.std.specs.Prelude.{◌≡◌, true};
ghost use Rattle.demangle_vocab.specs.WordTable.{is_prefix_free};
ghost use Rattle.demangle_vocab.specs.Order.{ReadsEachWord};
ghost use Rattle.demangle_vocab.specs.Operators.{operator_words};
ghost use Rattle.demangle_vocab.specs.Builtins.{builtin_words};
ghost use Rattle.demangle_vocab.specs.Components.{component_words};
ghost use Rattle.demangle_vocab.specs.Qualifiers.{ref_qualifier_words, explicit_object_words};

/// No word of a table is a prefix of another word of the same table.
pub fn no_word_is_a_prefix()
    ensures operators { is_prefix_free operator_words ≡ true }
    ensures builtins { is_prefix_free builtin_words ≡ true }
    ensures components { is_prefix_free component_words ≡ true }
    ensures ref_qualifiers { is_prefix_free ref_qualifier_words ≡ true }
    ensures explicit_objects { is_prefix_free explicit_object_words ≡ true }
{}

/// So the order of a table is of no account: the word that stands at the front is the one that is read.
pub fn the_word_at_the_front_is_read()
    ensures operators { ReadsEachWord operator_words }
    ensures builtins { ReadsEachWord builtin_words }
    ensures components { ReadsEachWord component_words }
    ensures ref_qualifiers { ReadsEachWord ref_qualifier_words }
    ensures explicit_objects { ReadsEachWord explicit_object_words }
{}
