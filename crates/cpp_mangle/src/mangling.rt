//! From a declaration to its name.

ghost use Rattle.std.specs.Prelude.{◌≡◌, IfOk, IsOkUnless};
ghost use Rattle.demangle_printing.specs.Outcome.{outcome, Shown};
ghost use Rattle.cpp_mangle.specs.Declarations.{mangled, decl_text};
ghost use Rattle.cpp_mangle.specs.Laws.{plain_options, NumbersEntities};

use crate::decl::Decl;
use crate::fault::MangleFault;
use crate::writer::Writer;
use std::alloc::Global;

/// The linker name of a declaration (ABI section 5.1), in which each entity that repeats is a reference.
///
/// A demangler under its default options prints it as `{}` prints the declaration. The numbered components of its tree
/// are the declaration's entities, in their order. `OutOfMemory` comes where there is no memory.
pub fn mangle(alloc: Global, decl: &Decl) -> Result<Vec<u8>, MangleFault>
    ensures format { IfOk result (λ name. name.items ≡ mangled decl.now) }
    ensures shown { IfOk result (λ name. outcome 96 plain_options name.items ≡ Shown (decl_text decl.now)) }
    ensures numbered { IfOk result (λ name. NumbersEntities name.items decl.now) }
    ensures no_other { IsOkUnless result MangleFault.OutOfMemory }
{
    let mut writer = Writer::new(alloc);
    writer.put_function(decl.path(), decl.params())?;
    Ok(writer.out)
}
