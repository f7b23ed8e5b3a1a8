//! Names that cpp_mangle makes, and what they are shown as.

use crate::checks::same;
use cpp_demangle::{DemangleOptions, ParseOptions, demangle_symbol};
use cpp_mangle::{Decl, DeclType, Ident, Path, mangle};
use std::alloc::Global;
use std::process::Abort;
use std::test::Fail;

/// A path by its parts, with `::` between.
fn path(alloc: Global, text: &str) -> Result<Path, Fail> {
    let mut parts = Vec::new(alloc);
    for part in text.split("::") {
        parts.push(Ident::new(alloc, part.as_bytes())?)?;
    }
    Ok(Path::new(parts)?)
}

/// A class.
fn class(alloc: Global, text: &str) -> Result<DeclType, Fail> {
    Ok(DeclType::Class(path(alloc, text)?))
}

/// A reference to a constant class.
fn const_ref(alloc: Global, text: &str) -> Result<DeclType, Fail> {
    let constant = DeclType::Const(Box::new(alloc, class(alloc, text)?)?);
    Ok(DeclType::Ref(Box::new(alloc, constant)?))
}

/// A pointer to a class.
fn pointer(alloc: Global, text: &str) -> Result<DeclType, Fail> {
    Ok(DeclType::Pointer(Box::new(alloc, class(alloc, text)?)?))
}

/// The declaration has this name, and the name is shown as this text, as is the declaration.
fn round_trip(
    rt: &impl Abort,
    alloc: Global,
    decl: &Decl,
    name: &'static str,
    text: &'static str,
) -> Result<(), Fail> {
    let made = mangle(alloc, decl)?;
    same(rt, name, made.as_slice(), name.as_bytes());
    let shown = demangle_symbol(
        alloc,
        &made,
        &ParseOptions::default(),
        &DemangleOptions::new(),
    )?;
    same(rt, name, shown.as_str(), text);
    same(rt, name, decl.to_string(alloc)?.as_str(), text);
    Ok(())
}

/// The function of the README.
fn shapes_area(alloc: Global) -> Result<Decl, Fail> {
    let area = vec![in alloc; Ident::new(alloc, b"shapes")?, Ident::new(alloc, b"area")?]?;
    let circle = vec![in alloc;
        Ident::new(alloc, b"shapes")?,
        Ident::new(alloc, b"Circle")?,
    ]?;
    let constant = DeclType::Const(Box::new(alloc, DeclType::Class(Path::new(circle)?))?);
    let params = vec![in alloc; DeclType::Ref(Box::new(alloc, constant)?)]?;
    Ok(Decl::new(Path::new(area)?, params)?)
}

#[test]
fn the_readme_s_declaration_is_shown(rt: HostRuntime) -> Result<(), Fail> {
    let decl = shapes_area(rt.alloc())?;
    round_trip(
        &rt,
        rt.alloc(),
        &decl,
        "_ZN6shapes4areaERKNS_6CircleE",
        "shapes::area(shapes::Circle const&)",
    )
}

#[test]
fn names_are_shown_as_their_declarations(rt: HostRuntime) -> Result<(), Fail> {
    let alloc = rt.alloc();
    let mut params = Vec::new(alloc);
    params.push(class(alloc, "a")?)?;
    params.push(const_ref(alloc, "a")?)?;
    params.push(const_ref(alloc, "a")?)?;
    let decl = Decl::new(path(alloc, "a::f")?, params)?;
    round_trip(
        &rt,
        alloc,
        &decl,
        "_ZN1a1fES_RKS_S1_",
        "a::f(a, a const&, a const&)",
    )?;

    let mut params = Vec::new(alloc);
    params.push(class(alloc, "a::b")?)?;
    params.push(pointer(alloc, "a::c")?)?;
    params.push(class(alloc, "a::b::d")?)?;
    let decl = Decl::new(path(alloc, "f")?, params)?;
    round_trip(
        &rt,
        alloc,
        &decl,
        "_Z1fN1a1bEPNS_1cENS0_1dE",
        "f(a::b, a::c*, a::b::d)",
    )
}

#[test]
fn names_with_few_parameters_are_shown_as_their_declarations(rt: HostRuntime) -> Result<(), Fail> {
    let alloc = rt.alloc();
    let mut params = Vec::new(alloc);
    params.push(class(alloc, "a::b")?)?;
    params.push(pointer(alloc, "a::b::d")?)?;
    let decl = Decl::new(path(alloc, "f")?, params)?;
    round_trip(&rt, alloc, &decl, "_Z1fN1a1bEPNS0_1dE", "f(a::b, a::b::d*)")?;
    let decl = Decl::new(path(alloc, "f")?, Vec::new(alloc))?;
    round_trip(&rt, alloc, &decl, "_Z1fv", "f()")
}
