//! A sample of names, demangled and counted.

ghost use Rattle.std.specs.Prelude.{◌≡◌, ◌+◌, ◌%◌, ◌++◌, OnOk, IfOk};
ghost use Rattle.std.specs.Fmt.{decimal};
ghost use Rattle.demangle_printing.specs.Outcome.{outcome};
ghost use Rattle.cppfilt_lines.specs.Sample.{copies, sample_name, source_name, summary, text_in, type_at};
ghost use Rattle.cppfilt_lines.specs.Sample.{types_from};
ghost use Rattle.cppfilt_run.specs.Counted.{Counted, IsLength};
ghost use Rattle.cppfilt_run.specs.Outcome.{Finished};

use crate::filter::status_of;
use crate::status::Status;
use cppfilt_ends::ends::Sink;
use cppfilt_ends::output::write_all;
use cppfilt_lines::FilterOptions;
use demangle_decimal::Decimal;
use demangle_gather::gather;
use demangler::{Demangler, SymbolFault};
use std::alloc::{AllocError, Global};

/// Writes what is due for a sample of so many names.
pub(crate) fn show_sample<W: Sink>(
    alloc: Global,
    options: &FilterOptions,
    count: usize,
    output: &mut W,
) -> Status
    ensures { Finished result (W.faults output.old) (W.faults output.new) (W.written output.old) (W.written output.new)
        (summary options.now count) }
{
    let Ok(text) = summary_text(alloc, options, count) else {
        return Status::OutOfMemory;
    };
    match write_all(output, text.as_slice()) {
        Ok(()) => Status::Done,
        Err(fault) => status_of(fault),
    }
}

/// What is due for the sample.
fn summary_text(alloc: Global, options: &FilterOptions, count: usize) -> Result<Vec<u8>, AllocError>
    ensures { IfOk result (λ text. text.items ≡ summary options.now count) }
{
    let (read, bytes) = counted(alloc, options, count)?;
    let mut text = Vec::new(alloc);
    push_number(&mut text, b"names ", count)?;
    push_number(&mut text, b" read ", read)?;
    push_number(&mut text, b" bytes ", bytes)?;
    text.push(b'\n')?;
    Ok(text)
}

/// Puts a word and a number behind a text.
fn push_number(text: &mut Vec<u8>, word: &[u8], n: usize) -> Result<(), AllocError>
    ensures { OnOk result (text.new.items ≡ text.old.items ++ word.now ++ decimal n) }
{
    text.extend_from_slice(word)?;
    push_decimal(text, n)
}

/// Puts a number in decimal behind a text.
fn push_decimal(text: &mut Vec<u8>, n: usize) -> Result<(), AllocError>
    ensures { OnOk result (text.new.items ≡ text.old.items ++ decimal n) }
{
    let mut digits = Decimal::new();
    text.extend_from_slice(digits.unsigned(n as u128).as_bytes())?;
    Ok(())
}

/// How many of the first names of the sample have a text, and how many bytes these texts have.
fn counted(
    alloc: Global,
    options: &FilterOptions,
    count: usize,
) -> Result<(usize, usize), AllocError>
    ensures { IfOk result (λ x. Counted options.now count x.0 x.1) }
{
    let mut name = Vec::new(alloc);
    let mut read = 0;
    let mut bytes: usize = 0;
    for i in 0..count {
        make_name(&mut name, i)?;
        if let Some(len) = text_len(alloc, options, name.as_slice())? {
            read += 1;
            bytes = bytes.checked_add(len).ok_or(AllocError)?;
        }
    }
    Ok((read, bytes))
}

/// How many bytes the text of a name has, where it has one.
fn text_len(
    alloc: Global,
    options: &FilterOptions,
    name: &[u8],
) -> Result<Option<usize>, AllocError>
    ensures { IfOk result (IsLength (text_in (outcome options.now.parse options.now.print name.now))) }
{
    let mut demangler = Demangler::new(alloc);
    let mut text = Vec::new(alloc);
    match gather(
        &mut demangler,
        name,
        &options.parse,
        &options.print,
        &mut text,
    ) {
        Ok(()) => Ok(Some(text.len())),
        Err(SymbolFault::OutOfMemory) => Err(AllocError),
        Err(_) => Ok(None),
    }
}

/// Makes a name of the sample.
fn make_name(name: &mut Vec<u8>, i: usize) -> Result<(), AllocError>
    ensures { OnOk result (name.new.items ≡ sample_name i) }
{
    name.clear();
    name.extend_from_slice(b"_ZN")?;
    push_parts(name, i)?;
    name.extend_from_slice(b"E")?;
    push_types(name, i)
}

/// Puts the equal parts of a name of the sample behind its beginning.
fn push_parts(name: &mut Vec<u8>, i: usize) -> Result<(), AllocError>
    ensures { OnOk result (name.new.items ≡ name.old.items ++ copies (1 + i % 7) (source_name i)) }
{
    for _part in 0..1 + i % 7 {
        push_part(name, i)?;
    }
    Ok(())
}

/// Puts one part of a name of the sample behind its beginning: the source name of `n` and a number.
fn push_part(name: &mut Vec<u8>, i: usize) -> Result<(), AllocError>
    ensures { OnOk result (name.new.items ≡ name.old.items ++ source_name i) }
{
    let mut digits = Decimal::new();
    let number = digits.unsigned((i % 1000) as u128).as_bytes();
    push_decimal(name, 1 + number.len())?;
    name.extend_from_slice(b"n")?;
    name.extend_from_slice(number)?;
    Ok(())
}

/// Puts the types of a name of the sample behind it.
fn push_types(name: &mut Vec<u8>, i: usize) -> Result<(), AllocError>
    ensures { OnOk result (name.new.items ≡ name.old.items ++ types_from i (1 + i % 4)) }
{
    for j in 0..1 + i % 4 {
        name.extend_from_slice(type_at((i % 4 + j) % 4))?;
    }
    Ok(())
}

/// One of the types of the sample.
fn type_at(k: usize) -> &'static [u8]
    ensures { result.now ≡ type_at k }
{
    match k {
        0 => b"i",
        1 => b"PKc",
        2 => b"RKd",
        _ => b"PFivE",
    }
}
