//! The parts of a name, written behind each other, and the entities so far.

ghost use Rattle.std.specs.Prelude.{◌≡◌, ◌++◌, ◌≤◌, ◌+◌, ◌^◌, ◌<◌, [], true, None, OnOk, length, take, map};
ghost use Rattle.std.specs.Fmt.{digit_glyph};
ghost use Rattle.cpp_mangle.specs.Declarations.{base_36, seq_id, reference, source_name, source_names, path_bytes};
ghost use Rattle.cpp_mangle.specs.Declarations.{with, with_all, mentioned, type_bytes, types_bytes, params_bytes};
ghost use Rattle.cpp_mangle.specs.Declarations.{of, class, fronts, mangled, nested_from, longest_behind};
ghost use Rattle.cpp_mangle.specs.Closed.{Closed};
ghost use Rattle.cpp_mangle.specs.Plain.{known, plain_entity, plain_type, plain_modifier, declared};

use crate::decl_type::DeclType;
use crate::entity::{Entity, Modifier, longest_front, place};
use crate::ident::Ident;
use crate::path::Path;
use crate::words::word;
use demangle_decimal::Decimal;
use std::alloc::{AllocError, Global};

/// A name so far, and the entities that stand in it, in the order in which their references count them.
#[derive(Drop)]
pub(crate) struct Writer<'a> {
    pub(crate) out: Vec<u8>,
    pub(crate) known: Vec<Entity<'a>>,
}

/// A digit of base 36.
fn digit(k: u8) -> u8
    requires { k < 36 }
    ensures { result ≡ digit_glyph true k }
{
    if k < 10 { k + 48 } else { k + 55 }
}

/// A number in base 36, of at most so many digits and one, behind what was written.
fn put_base_36(more: u32, k: usize, out: &mut Vec<u8>) -> Result<(), AllocError>
    requires { k < 36 ^ (more + 1) }
    ensures { OnOk result (out.new.items ≡ out.old.items ++ base_36 more k) }
{
    if more == 0 || k < 36 {
        out.push(digit(k as u8))?;
        return Ok(());
    }
    put_base_36(more - 1, k / 36, out)?;
    out.push(digit((k % 36) as u8))?;
    Ok(())
}

/// What stands in a reference to the entity at this place.
fn put_seq_id(place: usize, out: &mut Vec<u8>) -> Result<(), AllocError>
    ensures { OnOk result (out.new.items ≡ out.old.items ++ seq_id place) }
{
    if place == 0 {
        return Ok(());
    }
    put_base_36(12, place - 1, out)
}

/// A reference to the entity at this place.
fn put_reference(place: usize, out: &mut Vec<u8>) -> Result<(), AllocError>
    ensures { OnOk result (out.new.items ≡ out.old.items ++ reference place) }
{
    out.push(b'S')?;
    put_seq_id(place, out)?;
    out.push(b'_')?;
    Ok(())
}

/// An identifier behind its length.
fn put_source_name(ident: &Ident, out: &mut Vec<u8>) -> Result<(), AllocError>
    ensures { OnOk result (out.new.items ≡ out.old.items ++ source_name ident.now) }
{
    let text = ident.as_str();
    let mut length = Decimal::new();
    out.extend_from_slice(length.unsigned(text.len() as u128).as_bytes())?;
    out.extend_from_slice(text.as_bytes())
}

/// Identifiers behind their lengths.
fn put_source_names(parts: &[Ident], out: &mut Vec<u8>) -> Result<(), AllocError>
    ensures { OnOk result (out.new.items ≡ out.old.items ++ source_names parts.now) }
{
    for part in parts {
        put_source_name(part, out)?;
    }
    Ok(())
}

impl<'a> Writer<'a> {
    /// Nothing so far.
    pub(crate) fn new(alloc: Global) -> Writer<'a>
        ensures out { result.out.items ≡ [] }
        ensures known { known result ≡ [] }
    {
        Writer {
            out: Vec::new(alloc),
            known: Vec::new(alloc),
        }
    }

    /// A path behind its longest front among the entities so far.
    fn put_from_front(&mut self, parts: &[Ident]) -> Result<(), AllocError>
        ensures out { OnOk result (self.new.out.items ≡ self.old.out.items
            ++ nested_from parts.now (longest_behind [] parts.now (known self.old) None)) }
        ensures known { known self.new ≡ known self.old }
    {
        match longest_front(parts, &self.known) {
            Some((place, behind)) => {
                put_reference(place, &mut self.out)?;
                put_source_names(behind, &mut self.out)
            }
            None => put_source_names(parts, &mut self.out),
        }
    }

    /// A path, of which no front but a proper one is a reference.
    fn put_path(&mut self, parts: &[Ident]) -> Result<(), AllocError>
        ensures out { OnOk result (self.new.out.items ≡ self.old.out.items ++ path_bytes parts.now (known self.old)) }
        ensures known { known self.new ≡ known self.old }
    {
        if let [part] = parts {
            return put_source_name(part, &mut self.out);
        }
        self.out.push(b'N')?;
        self.put_from_front(parts)?;
        self.out.push(b'E')?;
        Ok(())
    }

    /// An entity is known from here on.
    fn add(&mut self, entity: Entity<'a>) -> Result<(), AllocError>
        ensures out { self.new.out ≡ self.old.out }
        ensures known { OnOk result (known self.new ≡ with (plain_entity entity.entry) (known self.old)) }
    {
        match place(&entity, &self.known) {
            Some(_) => Ok(()),
            None => {
                self.known.push(entity)?;
                Ok(())
            }
        }
    }

    /// The fronts of a path that have at most so many parts are known from here on.
    fn add_fronts(&mut self, parts: &'a [Ident], most: usize) -> Result<(), AllocError>
        requires { most ≤ length parts.now }
        ensures out { self.new.out ≡ self.old.out }
        ensures known { OnOk result (known self.new ≡ with_all (fronts (take most parts.now)) (known self.old)) }
    {
        for before in 0..most {
            self.add(Entity::Front(&parts[..before + 1]))?;
        }
        Ok(())
    }

    /// A class.
    fn put_class(&mut self, path: &'a Path) -> Result<(), AllocError>
        requires { Closed (known self.old) }
        ensures out { OnOk result (self.new.out.items ≡ self.old.out.items
            ++ type_bytes (class path.now) (known self.old)) }
        ensures known { OnOk result (known self.new ≡ with_all (fronts path.now) (known self.old)) }
    {
        let parts = path.parts();
        match place(&Entity::Front(parts), &self.known) {
            Some(place) => put_reference(place, &mut self.out),
            None => {
                self.put_path(parts)?;
                self.add_fronts(parts, parts.len())
            }
        }
    }

    /// A modified type.
    #[cycle(types)]
    fn put_modified(&mut self, modifier: Modifier, inner: &'a DeclType) -> Result<(), AllocError>
        requires { Closed (known self.old) }
        ensures out { OnOk result (self.new.out.items ≡ self.old.out.items
            ++ type_bytes (of (plain_modifier modifier) (plain_type inner.now)) (known self.old)) }
        ensures known { OnOk result (known self.new
            ≡ with_all (mentioned (of (plain_modifier modifier) (plain_type inner.now))) (known self.old)) }
    {
        let entity = Entity::Modified(modifier, inner);
        match place(&entity, &self.known) {
            Some(place) => put_reference(place, &mut self.out),
            None => {
                self.out.push(modifier.letter())?;
                self.put_type(inner)?;
                self.known.push(entity)?;
                Ok(())
            }
        }
    }

    /// A type.
    #[cycle(types)]
    fn put_type(&mut self, whole: &'a DeclType) -> Result<(), AllocError>
        requires { Closed (known self.old) }
        ensures out { OnOk result (self.new.out.items ≡ self.old.out.items
            ++ type_bytes (plain_type whole.now) (known self.old)) }
        ensures known { OnOk result (known self.new
            ≡ with_all (mentioned (plain_type whole.now)) (known self.old)) }
    {
        match whole {
            DeclType::Builtin(builtin) => self.out.extend_from_slice(word(*builtin).as_bytes()),
            DeclType::Class(path) => self.put_class(path),
            DeclType::Pointer(inner) => self.put_modified(Modifier::Pointer, inner),
            DeclType::Ref(inner) => self.put_modified(Modifier::Ref, inner),
            DeclType::RvalueRef(inner) => self.put_modified(Modifier::RvalueRef, inner),
            DeclType::Const(inner) => self.put_modified(Modifier::Const, inner),
        }
    }

    /// Types, one behind the other.
    fn put_types(&mut self, types: &'a [DeclType]) -> Result<(), AllocError>
        requires { Closed (known self.old) }
        ensures { OnOk result (self.new.out.items ≡ self.old.out.items
            ++ types_bytes (map plain_type types.now) (known self.old)) }
    {
        for one in types {
            self.put_type(one)?;
        }
        Ok(())
    }

    /// The types of parameters, or `void` where there are none.
    fn put_params(&mut self, params: &'a [DeclType]) -> Result<(), AllocError>
        requires { Closed (known self.old) }
        ensures { OnOk result (self.new.out.items ≡ self.old.out.items
            ++ params_bytes (map plain_type params.now) (known self.old)) }
    {
        if params.is_empty() {
            self.out.push(b'v')?;
            return Ok(());
        }
        self.put_types(params)
    }

    /// The name of a function with these parameters.
    pub(crate) fn put_function(
        &mut self,
        path: &'a Path,
        params: &'a [DeclType],
    ) -> Result<(), AllocError>
        requires out { self.old.out.items ≡ [] }
        requires known { known self.old ≡ [] }
        ensures { OnOk result (self.new.out.items ≡ mangled (declared path.now params.now)) }
    {
        self.out.extend_from_slice(b"_Z")?;
        let parts = path.parts();
        self.put_path(parts)?;
        self.add_fronts(parts, parts.len().saturating_sub(1))?;
        self.put_params(params)
    }
}
