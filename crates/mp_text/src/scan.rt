//! Where a byte first occurs.

ghost use Rattle.std.specs.Prelude.{◌≡◌, ◌≤◌, ◌==◌, not, length, position};
ghost use Rattle.std.specs.List.{position_or_len};

fn first_place(bytes: &[u8], wanted: u8) -> Option<usize>
    ensures { result ≡ position (λ b. b == wanted) bytes.now }
{
    bytes.iter().position(|&byte| byte == wanted)
}

fn first_other(bytes: &[u8], unwanted: u8) -> Option<usize>
    ensures { result ≡ position (λ b. not (b == unwanted)) bytes.now }
{
    bytes.iter().position(|&byte| byte != unwanted)
}

/// How many bytes precede the first `wanted` one: all if there is none.
pub fn length_before(bytes: &[u8], wanted: u8) -> usize
    ensures first { result ≡ position_or_len (λ b. b == wanted) bytes.now }
    ensures within { result ≤ length bytes.now }
{
    first_place(bytes, wanted).unwrap_or(bytes.len())
}

/// How many `repeated` bytes precede the first other one: all if there is none.
pub fn run_length(bytes: &[u8], repeated: u8) -> usize
    ensures first { result ≡ position_or_len (λ b. not (b == repeated)) bytes.now }
    ensures within { result ≤ length bytes.now }
{
    first_other(bytes, repeated).unwrap_or(bytes.len())
}
