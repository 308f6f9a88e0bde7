//! Reads numbers at the front of bytes.
ghost use Rattle.std.specs.Prelude.{◌≡◌, ◌≤◌, ◌++◌, length};
ghost use Rattle.std.specs.Int.{w16, w32, w64, to_le_bytes};

/// Returns the number in the first two bytes, and the bytes after them.
pub fn u16_at(bytes: &[u8]) -> (u16, &[u8])
    requires { 2 ≤ length bytes.now }
    ensures { bytes.now ≡ to_le_bytes w16 result.0 ++ result.1.now }
{
    let (front, rest) = bytes.split_at(2);
    (u16::from_le_bytes([front[0], front[1]]), rest)
}

/// Returns the number in the first four bytes, and the bytes after them.
pub fn u32_at(bytes: &[u8]) -> (u32, &[u8])
    requires { 4 ≤ length bytes.now }
    ensures { bytes.now ≡ to_le_bytes w32 result.0 ++ result.1.now }
{
    let (front, rest) = bytes.split_at(4);
    let number = u32::from_le_bytes([front[0], front[1], front[2], front[3]]);
    (number, rest)
}

/// Returns the number in the first eight bytes, and the bytes after them.
pub fn u64_at(bytes: &[u8]) -> (u64, &[u8])
    requires { 8 ≤ length bytes.now }
    ensures { bytes.now ≡ to_le_bytes w64 result.0 ++ result.1.now }
{
    let (front, rest) = bytes.split_at(8);
    let number = u64::from_le_bytes([
        front[0], front[1], front[2], front[3], front[4], front[5], front[6], front[7],
    ]);
    (number, rest)
}
