//! Texts in buffers of the caller.
ghost use Rattle.fluent_c_handles.specs.Answers.{Given};

/// Copies a text to the start of a buffer, and gives how many bytes it has. A buffer that is too small for it is left
/// as it was: the answer is the room that is needed.
pub fn put_text(text: &str, buffer: &mut [u8]) -> usize
    ensures { Given text.now buffer.old buffer.new result }
{
    put_bytes(text.as_bytes(), buffer)
}

/// The same of bytes.
pub(crate) fn put_bytes(bytes: &[u8], buffer: &mut [u8]) -> usize
    ensures { Given bytes.now buffer.old buffer.new result }
{
    let length = bytes.len();
    if length <= buffer.len() {
        buffer[..length].copy_from_slice(bytes);
    }
    length
}
