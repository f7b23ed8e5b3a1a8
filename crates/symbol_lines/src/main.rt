//! The program `symbol_lines`: it writes the text of each line that is a linker name, by a `Symbol` of it, and any other
//! line as it stands.
#![tactic(auto)]

use cpp_demangle::BorrowedSymbol;
use std::alloc::Global;
use std::io;

/// The text of a line, if it is a linker name that has one.
fn text_of(alloc: Global, line: &str) -> Option<String> {
    let symbol = BorrowedSymbol::new(alloc, line.as_bytes()).ok()?;
    symbol.demangle(alloc).ok()
}

fn main(rt: HostRuntime) -> io::Result<()> {
    for line in rt.lines(rt.alloc()) {
        let line = line?;
        match text_of(rt.alloc(), &line) {
            Some(text) => println!(rt; "{text}")?,
            None => println!(rt; "{line}")?,
        }
    }
    Ok(())
}
