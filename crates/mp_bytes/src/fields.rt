//! Fields at the front of bytes. Each function returns the field and the bytes after it, or `None` if there are too few
//! bytes.
//! Numbers are big-endian.

ghost use Rattle.std.specs.Prelude.{◌≡◌, ◌<◌, ◌^◌, IfSome};
ghost use Rattle.std.specs.Option.{option_map};
ghost use Rattle.mp_bytes.specs.Fields.{number_at, unsigned_at, count_at, run_at, sized_at};

/// A number of 8 bytes, in two's complement.
#[tactic(auto, unfolding(crate::specs::Fields::number_at))]
pub fn split_number(bytes: &[u8]) -> Option<(i64, &[u8])>
    ensures { option_map (λ f. (f.0, f.1.now)) result ≡ number_at bytes.now }
{
    let (number, rest) = bytes.split_first_chunk::<8>()?;
    Some((i64::from_be_bytes(*number), rest))
}

/// An unsigned number of 8 bytes.
#[tactic(auto, unfolding(crate::specs::Fields::unsigned_at))]
pub fn split_unsigned(bytes: &[u8]) -> Option<(u64, &[u8])>
    ensures { option_map (λ f. (f.0, f.1.now)) result ≡ unsigned_at bytes.now }
{
    let (number, rest) = bytes.split_first_chunk::<8>()?;
    Some((u64::from_be_bytes(*number), rest))
}

/// A count of 2 bytes.
#[tactic(auto, unfolding(crate::specs::Fields::count_at))]
pub fn split_count(bytes: &[u8]) -> Option<(u16, &[u8])>
    ensures { option_map (λ f. (f.0, f.1.now)) result ≡ count_at bytes.now }
{
    let (count, rest) = bytes.split_first_chunk::<2>()?;
    Some((u16::from_be_bytes(*count), rest))
}

/// The first `len` bytes.
#[tactic(auto, unfolding(crate::specs::Fields::run_at))]
pub fn split_run(bytes: &[u8], len: usize) -> Option<(&[u8], &[u8])>
    ensures { option_map (λ f. (f.0.now, f.1.now)) result ≡ run_at len bytes.now }
{
    bytes.split_at_checked(len)
}

/// The first `N` bytes.
#[tactic(auto, unfolding(crate::specs::Fields::run_at))]
pub fn split_array<const N: usize>(bytes: &[u8]) -> Option<(&[u8; N], &[u8])>
    ensures { option_map (λ f. (f.0.now, f.1.now)) result ≡ run_at N bytes.now }
{
    bytes.split_first_chunk::<N>()
}

/// A count of 2 bytes, and then that many bytes, without the count.
#[tactic(auto, unfolding(crate::specs::Fields::sized_at))]
pub fn split_sized(bytes: &[u8]) -> Option<(&[u8], &[u8])>
    ensures { option_map (λ f. (f.0.now, f.1.now)) result ≡ sized_at bytes.now }
{
    let (len, rest) = split_count(bytes)?;
    split_run(rest, len as usize)
}
