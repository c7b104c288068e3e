//! Where a call that is handed a writer writes.

ghost use Rattle.std.specs.Prelude.{◌≡◌, None, false};

use fluent_text::Counting;
use fluent_values::output::Output;

/// An output that writes through to a writer. A buffer stands beside it, and takes nothing.
#[inline(always)]
pub fn through<'w, 'unused, W>(
    w: &'w mut Counting<W>,
    unused: &'unused mut String,
    kept: &'unused mut String,
) -> Output<'w, 'unused, W>
    ensures same_writer { result.writer.ghost_name ≡ w.entry.ghost_name }
    ensures writer { result.writer.now ≡ w.old }
    ensures same_buffer { result.buffer.ghost_name ≡ unused.entry.ghost_name }
    ensures buffer { result.buffer.now ≡ unused.old }
    ensures through { result.is_buffered ≡ false }
    ensures error { result.error ≡ None }
    ensures kept { result.is_kept ≡ false }
{
    Output {
        writer: w,
        buffer: unused,
        is_buffered: false,
        error: None,
        kept,
        is_kept: false,
    }
}
