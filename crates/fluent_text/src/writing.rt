//! A whole text handed to a writer.

ghost use Rattle.std.specs.Prelude.{◌≡◌, ◌≢◌, OnOk, OnErr};
ghost use Rattle.fluent_text.specs.Writer.{CountsFault};
ghost use Rattle.fluent_text.specs.Written.{WroteAll, WroteLess, WrotePrefix};

use crate::counting::{Counting, WriteFault};
use std::io::Write;

/// Writes the whole piece by single writes, each with what the one before it left.
///
/// A write that fails or takes nothing ends it, and is the one that raised a count; the writer took a prefix of the piece
/// then, and something is left. It takes no memory.
#[inline(always)]
pub fn put<W: Write>(w: &mut Counting<W>, piece: &[u8]) -> Result<(), WriteFault>
    ensures whole { OnOk result (WroteAll W.contents w.old w.new piece.now) }
    ensures prefix { OnErr result (WrotePrefix W.contents w.old w.new piece.now) }
    ensures left { OnErr result (WroteLess W.contents w.old w.new piece.now) }
    ensures fault { CountsFault w.old w.new result }
    ensures memory { result ≢ Err WriteFault.Memory }
{
    let mut rest = piece;
    while !rest.is_empty() {
        match w.write(rest) {
            Ok(0) => return Err(WriteFault::Zero),
            Ok(n) => rest = &rest[n..],
            Err(e) => return Err(WriteFault::Writer(e)),
        }
    }
    Ok(())
}
