//! The parts of a name in a buffer of C.

ghost use Rattle.std.specs.Prelude.{◌≡◌, ◌≢◌, ◌↔◌, true, IfOk, IfErr, IfSome, Ok, Err, length, ◌⊎◌};
ghost use Rattle.demangler.specs.Answer.{may_come, print_fault, read_fault};
ghost use Rattle.demangler.specs.declared.fault.SymbolFault.TheVariants.{OutOfMemory};
ghost use Rattle.demangle_parts.specs.Answers.{parts_in};
ghost use Rattle.cpp_demangle_c.specs.Asked.{IsInRange, answer};
ghost use Rattle.cpp_demangle_c.specs.Codes.{fault_at};
ghost use Rattle.cpp_demangle_c.specs.Divided.{IsPartsAnswer, IsTextAnswer, TellsPlaces, joined, kind_number};
ghost use Rattle.cpp_demangle_c.specs.Divided.{no_places, parts_answer, parts_text, places_of, without_result};
ghost use Rattle.cpp_demangle_c.specs.Told.{HoldsText, LacksRoom, code_due, room_due};

use crate::codes::{BAD_LENGTH, BAD_OPTION, DONE, NO_ROOM, OUT_OF_MEMORY, code_of};
use crate::settings::Settings;
use crate::text::{hand_out, is_length};
use cpp_demangle::error::{DemangleError, Error};
use cpp_demangle::{BorrowedSymbol, Symbol};
use demangle_parts::{Kind, Parts, parts_of};
use demangler::SymbolFault;
use std::alloc::{AllocError, Global};

/// The arity that stands for none.
pub const NO_ARITY: usize = usize::MAX;

/// Where the parts of a name stand in its text. The header's `cpp_demangle_places`.
#[repr(C)]
#[derive(Clone, Copy)]
pub struct Places {
    /// What the name is of, from 1 to 6; 0 where it has no text.
    pub kind: u32,
    /// Whether it is in a class or a namespace, whose name then stands at the front.
    pub has_scope: bool,
    /// How many bytes the scope has.
    pub scope_len: usize,
    /// Where the base begins, behind the scope and `::`.
    pub base_at: usize,
    /// How many bytes the base has.
    pub base_len: usize,
    /// How many parameters a function has; `NO_ARITY` for other kinds.
    pub arity: usize,
}

/// The places of a name that has no text.
fn no_places() -> Places
    ensures { result ≡ no_places }
{
    Places {
        kind: 0,
        has_scope: false,
        scope_len: 0,
        base_at: 0,
        base_len: 0,
        arity: NO_ARITY,
    }
}

/// The number of a kind.
fn kind_number(kind: Kind) -> u32
    ensures { result ≡ kind_number kind }
{
    match kind {
        Kind::Function => 1,
        Kind::Data => 2,
        Kind::Special => 3,
        Kind::Block => 4,
        Kind::Keyed => 5,
        Kind::TopType => 6,
    }
}

/// Where the parts stand in the text that they join to.
fn places_of(parts: &Parts) -> Places
    ensures { result ≡ places_of (parts_in parts.now) }
{
    let scope_len = match parts.scope() {
        None => 0,
        Some(scope) => scope.len(),
    };
    let has_scope = parts.scope().is_some();
    Places {
        kind: kind_number(parts.kind()),
        has_scope,
        scope_len,
        base_at: if has_scope { scope_len + 2 } else { 0 },
        base_len: parts.base().len(),
        arity: parts.arity().unwrap_or(NO_ARITY),
    }
}

/// The text of a name, of its parts.
fn joined(alloc: Global, parts: &Parts) -> Result<Vec<u8>, AllocError>
    ensures { IfOk result (λ text. text.items ≡ joined (parts_in parts.now)) }
{
    let mut text = Vec::new(alloc);
    if let Some(scope) = parts.scope() {
        text.extend_from_slice(scope.as_bytes())?;
        text.extend_from_slice(b"::")?;
    }
    text.extend_from_slice(parts.base().as_bytes())?;
    text.extend_from_slice(parts.after().as_bytes())?;
    Ok(text)
}

/// What an error of reading is to the parts of a name.
fn read_fault(error: Error) -> SymbolFault
    ensures { result ≡ read_fault error }
{
    match error {
        Error::OutOfMemory => SymbolFault::OutOfMemory,
        _ => SymbolFault::Read(error),
    }
}

/// What an error of printing is to the parts of a name.
fn print_fault(error: DemangleError) -> SymbolFault
    ensures { result ≡ print_fault error }
{
    match error {
        DemangleError::OutOfMemory => SymbolFault::OutOfMemory,
        _ => SymbolFault::Print(error),
    }
}

/// The parts of a name, or why it has none.
fn parts_of_name(alloc: Global, name: &[u8], options: &Settings) -> Result<Parts, SymbolFault>
    requires { IsInRange options.now }
    ensures answer { IsPartsAnswer (parts_answer options.now name.now) result }
    ensures text { IsTextAnswer (answer (without_result options.now) name.now) result }
    ensures causes { IfErr result (λ e. may_come e ≡ true) }
{
    let symbol: Result<BorrowedSymbol<'_>, Error> = Symbol::new_with_options(
        alloc,
        name,
        &options.parse(),
    );
    match symbol {
        Ok(symbol) => match parts_of(alloc, &symbol, &options.print()) {
            Ok(parts) => Ok(parts),
            Err(error) => Err(print_fault(error)),
        },
        Err(error) => Err(read_fault(error)),
    }
}

/// Puts the text of a name's parts into the room, where it is long enough, and tells how many bytes it has and where
/// the parts stand. `OUT_OF_MEMORY` leaves all as it was.
fn hand_out_parts(
    alloc: Global,
    parts: &Parts,
    room: &mut [u8],
    text_len: &mut usize,
    places: &mut Places,
) -> u32
    ensures code { result ≢ OUT_OF_MEMORY → result ≡ code_due (Ok (joined (parts_in parts.now))) (length room.old) }
    ensures room { result ≢ OUT_OF_MEMORY → room.new ≡ room_due (Ok (joined (parts_in parts.now))) room.old }
    ensures text_len { result ≢ OUT_OF_MEMORY → text_len.new ≡ length (joined (parts_in parts.now)) }
    ensures places { result ≢ OUT_OF_MEMORY → places.new ≡ places_of (parts_in parts.now) }
    ensures lacked { result ≡ OUT_OF_MEMORY → (room.new ≡ room.old) × (text_len.new ≡ text_len.old)
        × (places.new ≡ places.old) }
{
    match joined(alloc, parts) {
        Ok(text) => {
            *places = places_of(parts);
            hand_out(text.as_slice(), room, text_len)
        }
        Err(_) => OUT_OF_MEMORY,
    }
}

/// Puts the text of a linker name, whole, at the front of the room, printed without a result type, and tells where its
/// parts stand in it. The codes are those of `cpp_demangle_text`; but for `DONE` and `NO_ROOM` no places are told.
#[unsafe(no_mangle)]
pub extern "C" fn cpp_demangle_parts(
    alloc: Global,
    name: &[u8],
    options: &Settings,
    room: &mut [u8],
    text_len: &mut usize,
    places: &mut Places,
) -> u32
    ensures option { (result ≡ BAD_OPTION) ↔ ¬ IsInRange options.now }
    ensures code { IsInRange options.now → result ≢ OUT_OF_MEMORY
        → result ≡ code_due (answer (without_result options.now) name.now) (length room.old) }
    ensures cause { IfSome (fault_at result)
        (λ f. f ≢ OutOfMemory → answer (without_result options.now) name.now ≡ Err f) }
    ensures text { result ≡ DONE
        → HoldsText (answer (without_result options.now) name.now) text_len.new room.old room.new }
    ensures no_room { result ≡ NO_ROOM
        → LacksRoom (answer (without_result options.now) name.now) text_len.new room.old }
    ensures joins { (result ≡ DONE) ⊎ (result ≡ NO_ROOM)
        → answer (without_result options.now) name.now ≡ parts_text (parts_answer options.now name.now) }
    ensures places { (result ≡ DONE) ⊎ (result ≡ NO_ROOM)
        → TellsPlaces (parts_answer options.now name.now) places.new }
    ensures kept { result ≢ DONE → room.new ≡ room.old }
    ensures no_text { result ≢ DONE → result ≢ NO_ROOM → (text_len.new ≡ 0) × (places.new ≡ no_places) }
{
    *text_len = 0;
    *places = no_places();
    if !is_length(name.len()) || !is_length(room.len()) {
        return BAD_LENGTH;
    }
    if !options.is_in_range() {
        return BAD_OPTION;
    }
    match parts_of_name(alloc, name, options) {
        Ok(parts) => hand_out_parts(alloc, &parts, room, text_len, places),
        Err(fault) => code_of(fault),
    }
}
