//! Where the scope and the base of a name end in its text.

ghost use Rattle.std.specs.Prelude.{◌≡◌, ◌≤◌, ◌<◌, ◌-◌, codes, length, slice_index};
ghost use Rattle.std.specs.Str.{IsUtf8, bytes_eq};
ghost use Rattle.demangle_printing.specs.State.{nested_name};
ghost use Rattle.demangle_parts_text.specs.Fronts.{DividesAt, DividesIf, ScopeAt, TemplateAt, TextAt, UpTo, here};
ghost use Rattle.demangle_parts_text.specs.Items.{text_in};
ghost use Rattle.demangle_parts_text.specs.Split.{colons, ends_in_colons, opens};
ghost use Rattle.demangle_parts_text.specs.Walk.{are_arguments, arguments_size, is_closing, is_name};
ghost use Rattle.demangle_parts_text.specs.Walk.{is_name_in_scope, node_first, scope_in_first};

use crate::front::Front;
use demangle_context::DemangleNodeType;

/// Whether template arguments may begin with this text.
fn opens(text: &[u8]) -> bool
    ensures { result ≡ opens text.now }
{
    text == b"<".as_slice() || text == b" <".as_slice()
}

fn is_colons(text: &[u8]) -> bool
    ensures { result ≡ bytes_eq text.now colons }
{
    text == b"::".as_slice()
}

fn is_std(text: &[u8]) -> bool
    ensures { result ≡ bytes_eq text.now (codes "std::") }
{
    text == b"std::".as_slice()
}

fn ends_in_colons(text: &[u8]) -> bool
    ensures { result ≡ ends_in_colons text.now }
{
    let (_, last) = text.split_at(text.len().saturating_sub(2));
    last == b"::".as_slice()
}

/// A name, and nothing behind it in the node.
fn name(front: Front<'_>) -> Option<Front<'_>>
    ensures { UpTo is_name front.entry result }
{
    match front.node_at(DemangleNodeType::UnqualifiedName) {
        None => None,
        Some((_, behind)) => {
            if behind.is_at_end() {
                Some(behind)
            } else {
                None
            }
        }
    }
}

/// `::`, a name, and nothing behind it in the node.
fn name_in_scope(front: Front<'_>) -> Option<Front<'_>>
    ensures { UpTo is_name_in_scope front.entry result }
{
    let (size, behind) = front.text_at();
    if !is_colons(front.first(size)) {
        return None;
    }
    name(behind)
}

/// `>`, and nothing behind it in the node.
fn closing(front: Front<'_>) -> Option<Front<'_>>
    ensures { UpTo is_closing front.entry result }
{
    let (size, behind) = front.text_at();
    if front.first(size) == b">".as_slice() && behind.is_at_end() {
        Some(behind)
    } else {
        None
    }
}

/// Template arguments, and nothing behind them in the node.
fn arguments(front: Front<'_>) -> Option<Front<'_>>
    ensures { UpTo are_arguments front.entry result }
{
    let (size, behind) = front.text_at();
    if !opens(front.first(size)) {
        return None;
    }
    match behind.node_at(DemangleNodeType::TemplateArgs) {
        None => None,
        Some((_, behind)) => closing(behind),
    }
}

/// The scope of a node that begins with a text of this size, not 0.
fn scope_in_text<'a>(front: Front<'a>, size: usize, behind: Front<'a>) -> Option<(usize, Front<'a>)>
    requires at { TextAt front size behind }
    requires some { 0 < size }
    ensures { ScopeAt front.entry result }
{
    if !ends_in_colons(front.first(size)) {
        return None;
    }
    match name(behind) {
        None => None,
        Some(end) => Some((size - 2, end)),
    }
}

/// The scope of a template is that of its name, where arguments stand behind the name's end.
fn scope_of_template(scope: usize, end: Front<'_>) -> Option<(usize, Front<'_>)>
    ensures { TemplateAt scope end.entry result }
{
    match end.leave() {
        None => None,
        Some(behind) => match arguments(behind) {
            None => None,
            Some(end) => Some((scope, end)),
        },
    }
}

/// How long the scope is in the text of the node in which the front stands, and where this node ends; `None` where it
/// has no scope. The end of a template's name is where its arguments begin, so no node is walked again for each that
/// it stands in.
fn scope_in(front: Front<'_>) -> Option<(usize, Front<'_>)>
    ensures { ScopeAt front.entry result }
{
    let (size, behind) = front.text_at();
    if size > 0 {
        return scope_in_text(front, size, behind);
    }
    match front.node_at(DemangleNodeType::Prefix) {
        Some((size, behind)) => match name_in_scope(behind) {
            None => None,
            Some(end) => Some((size, end)),
        },
        None => match front.enter(DemangleNodeType::TemplatePrefix) {
            None => None,
            Some(within) => match scope_in(within) {
                None => None,
                Some((scope, end)) => scope_of_template(scope, end),
            },
        },
    }
}

/// How long the scope is of the nested name that begins here; `None` where it has none, or none begins here.
fn nested_scope(front: Front<'_>) -> Option<usize>
    ensures { result ≡ scope_in_first (node_first nested_name (here front.entry)) }
{
    match front.enter(DemangleNodeType::NestedName) {
        None => None,
        Some(within) => match scope_in(within) {
            None => None,
            Some((scope, _)) => Some(scope),
        },
    }
}

/// How many bytes the template arguments have that begin here, with their brackets; 0 where none do.
fn arguments_size(front: Front<'_>) -> usize
    ensures size { result ≡ arguments_size (here front.entry) }
    ensures within { result ≤ length front.entry.text.now }
    ensures end { 0 < result → slice_index front.entry.text.now (result - 1) ≡ 62 }
{
    let (opening, behind) = front.text_at();
    if !opens(front.first(opening)) {
        return 0;
    }
    let Some((within, behind)) = behind.node_at(DemangleNodeType::TemplateArgs) else {
        return 0;
    };
    let (closing, _) = behind.text_at();
    if behind.first(closing).starts_with(b">") {
        opening + within + 1
    } else {
        0
    }
}

/// Where the scope ends, if there is one, and where the base ends.
fn divide(front: Front<'_>) -> (Option<usize>, usize)
    requires text { IsUtf8 front.text.now }
    requires all { text_in (here front) ≡ front.text.now }
    ensures { DividesAt front.entry result }
{
    let whole = (None, front.text.len());
    let (size, behind) = front.text_at();
    if size > 0 {
        if !is_std(front.first(size)) {
            return whole;
        }
        return match behind.node_at(DemangleNodeType::UnqualifiedName) {
            None => whole,
            Some((name, behind)) => (Some(size - 2), size + name + arguments_size(behind)),
        };
    }
    match front.node_at(DemangleNodeType::UnqualifiedName) {
        Some((name, behind)) => (None, name + arguments_size(behind)),
        None => match front.node_at(DemangleNodeType::NestedName) {
            None => whole,
            Some((end, _)) => (nested_scope(front), end),
        },
    }
}

/// The same, or no scope and the whole text, where the name has no parts.
pub(crate) fn divide_if(has_parts: bool, front: Front<'_>) -> (Option<usize>, usize)
    requires text { IsUtf8 front.text.now }
    requires all { text_in (here front) ≡ front.text.now }
    ensures { DividesIf has_parts front.entry result }
{
    if has_parts {
        divide(front)
    } else {
        (None, front.text.len())
    }
}
