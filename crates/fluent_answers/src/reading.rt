//! Records in a run of bytes, before their texts are known to be UTF-8.
ghost use Rattle.std.specs.Prelude.{◌≡◌};
ghost use Rattle.fluent_text.specs.Reading.{found};
ghost use Rattle.fluent_answers.specs.Records as prefix;
ghost use Rattle.fluent_answers.specs.Inside.Raw.{bytes_view, raw_view};

use crate::kind::{Kind, kind_of};

/// A record.
#[derive(Clone, Copy)]
pub(crate) struct Raw<'b> {
    pub name: &'b [u8],
    pub value: &'b [u8],
    pub kind: Kind,
}

/// The record at the start, and what stands after it.
pub(crate) fn next(bytes: &[u8]) -> Option<(Raw<'_>, &[u8])>
    ensures { found raw_view result ≡ prefix.one_record bytes.now }
{
    let (first, bytes) = bytes.split_first()?;
    let kind = kind_of(*first)?;
    let (name, bytes) = sized(bytes)?;
    let (value, bytes) = sized(bytes)?;
    Some((Raw { name, value, kind }, bytes))
}

/// The bytes at the start that stand after their length, and what stands after them.
fn sized(bytes: &[u8]) -> Option<(&[u8], &[u8])>
    ensures { found bytes_view result ≡ prefix.sized bytes.now }
{
    let (size, rest) = bytes.split_first_chunk::<4>()?;
    rest.split_at_checked(u32::from_le_bytes(*size) as usize)
}
