//! Reading a grammar file: its size, its encoding, its tokens, and its definitions.
ghost use Rattle.std.specs.Prelude.{◌≤◌, length};
ghost use Rattle.lbnf_text.specs.Reading.{ReadsFile, ReadsDefs};

use crate::definitions::definitions;
use crate::defs::Defs;
use crate::differences::bad_difference;
use crate::scanner::scan_file;
use spec_lbnf::{Def, TextFault};
use spec_text::MAX_FILE;
use std::alloc::Global;

/// The definitions that a text spells, or its first fault.
fn read_text(alloc: Global, text: &str) -> Result<Vec<Def>, TextFault>
    requires { length text.now ≤ 65536 }
    ensures { ReadsFile (λ list. list.items) text.now result }
{
    let scan = scan_file(alloc, text).map_err(|_| TextFault::Memory)?;
    let defs = definitions(alloc, scan.tokens.as_slice(), scan.stop)?;
    if scan.stop < text.len() as u32 {
        return Err(TextFault::Syntax { at: scan.stop });
    }
    match bad_difference(defs.as_slice(), scan.tokens.as_slice()) {
        None => Ok(defs),
        Some(at) => Err(TextFault::BadDifference { at }),
    }
}

/// The definitions that the bytes spell, or their first fault.
fn read_bytes(alloc: Global, bytes: &[u8]) -> Result<Vec<Def>, TextFault>
    ensures { ReadsFile (λ list. list.items) bytes.now result }
{
    if MAX_FILE < bytes.len() {
        let count = bytes.len() as u64;
        return Err(TextFault::TooLarge { count });
    }
    match str::from_utf8(bytes) {
        Ok(text) => read_text(alloc, text),
        Err(fault) => {
            let at = fault.valid_up_to() as u32;
            Err(TextFault::NotUtf8 { at })
        }
    }
}

/// The definitions that the bytes of a grammar file spell, or its first fault: labelled BNF after
/// the BNF Converter's manual, in a profile of our own. A file has at most 65,536 bytes. Its size
/// is looked at first, then its encoding, both without memory, then the least offset at which it
/// cannot go on, and last the differences of its token expressions, in the order of their signs. It
/// takes work and memory in proportion to the file: each byte is looked at a few times, and names
/// and words are copied; a side of a difference is looked at once more for each difference around
/// it.
pub fn read_defs(alloc: Global, bytes: &[u8]) -> Result<Defs, TextFault>
    ensures { ReadsDefs bytes.now result }
{
    match read_bytes(alloc, bytes) {
        Ok(list) => Ok(Defs::of(list)),
        Err(fault) => Err(fault),
    }
}
