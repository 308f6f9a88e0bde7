//! Numbers of 64 bits as bytes, the low byte first.
ghost use Rattle.std.specs.Prelude.{◌≡◌, ◌++◌};
ghost use Rattle.std.specs.Int.{w64, to_le_bytes};

/// Returns the bytes of three numbers.
pub fn three_words(a: u64, b: u64, c: u64) -> [u8; 24]
    ensures { result ≡ to_le_bytes w64 a ++ to_le_bytes w64 b ++ to_le_bytes w64 c }
{
    let a = a.to_le_bytes();
    let b = b.to_le_bytes();
    let c = c.to_le_bytes();
    [
        a[0], a[1], a[2], a[3], a[4], a[5], a[6], a[7], b[0], b[1], b[2], b[3], b[4], b[5], b[6],
        b[7], c[0], c[1], c[2], c[3], c[4], c[5], c[6], c[7],
    ]
}

/// Returns the bytes of four numbers.
pub fn four_words(a: u64, b: u64, c: u64, d: u64) -> [u8; 32]
    ensures { result ≡ to_le_bytes w64 a ++ to_le_bytes w64 b
        ++ to_le_bytes w64 c ++ to_le_bytes w64 d }
{
    let a = a.to_le_bytes();
    let b = b.to_le_bytes();
    let c = c.to_le_bytes();
    let d = d.to_le_bytes();
    [
        a[0], a[1], a[2], a[3], a[4], a[5], a[6], a[7], b[0], b[1], b[2], b[3], b[4], b[5], b[6],
        b[7], c[0], c[1], c[2], c[3], c[4], c[5], c[6], c[7], d[0], d[1], d[2], d[3], d[4], d[5],
        d[6], d[7],
    ]
}
