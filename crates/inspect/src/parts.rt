// Parts of lent bytes.

// The bytes from `at` on, `count` of them, and none where they are not all there.
pub(crate) fn within<'a>(bytes: &'a [u8], at: usize, count: usize) -> &'a [u8] {
    behind(bytes, at).get(..count).unwrap_or(&bytes[..0])
}

// All bytes from `at` on.
pub(crate) fn behind<'a>(bytes: &'a [u8], at: usize) -> &'a [u8] {
    bytes.get(at..).unwrap_or(&bytes[..0])
}
