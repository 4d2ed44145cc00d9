//! Parts of slices.
ghost use Rattle.std.specs.Prelude.{◌≡◌, take, drop};

/// Returns the first `n` bytes, or all bytes if there are fewer.
pub fn front(bytes: &[u8], n: usize) -> &[u8]
    ensures { result.now ≡ take n bytes.now }
{
    &bytes[..n.min(bytes.len())]
}

/// Returns the bytes after the first `n`, or none if there are no more.
pub fn behind(bytes: &[u8], n: usize) -> &[u8]
    ensures { result.now ≡ drop n bytes.now }
{
    &bytes[n.min(bytes.len())..]
}
