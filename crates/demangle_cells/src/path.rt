//! The way from a stamp back to an earlier one.

use crate::ledger::Ledger;
use crate::room::Room;
use demangle_text::{Error, Result};

/// The stamps from one back to another, which is not among them, in place of what the path held; how many they are.
pub(crate) fn follow(ledger: &Ledger, path: &mut Room<u32>, from: u32, to: u32) -> Result<usize> {
    path.truncate(0);
    let mut stamp = from;
    while stamp > to {
        path.push(stamp)?;
        match ledger.told(stamp) {
            Some(was) if was.before < stamp => stamp = was.before,
            _ => return Err(Error::OutOfMemory),
        }
    }
    Ok(path.len())
}
