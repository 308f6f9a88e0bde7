//! A tenant's size of blobs after a link is added or removed.

ghost use Rattle.std.specs.Prelude.{◌≡◌, ◌+◌, ◌-◌, ◌<◌, ◌≤◌, ◌^◌, if◌then◌else◌};

/// Returns the tenant's size of blobs after a link is added. `held` says whether the tenant already contained the blob.
pub fn bytes_with(weight: u64, held: bool, size: u64) -> u64
    requires { weight + size < 2 ^ 64 }
    ensures { result ≡ weight + (if held then 0 else size) }
{
    if held { weight } else { weight + size }
}

/// Returns the tenant's size of blobs after a link is removed. `held` says whether the tenant still contains the blob.
pub fn bytes_without(weight: u64, held: bool, size: u64) -> u64
    requires { (if held then 0 else size) ≤ weight }
    ensures { result ≡ weight - (if held then 0 else size) }
{
    if held { weight } else { weight - size }
}
