//! Steps over the bytes of a source.

ghost use Rattle.std.specs.Prelude.{◌≡◌, ◌<◌, ◌≤◌, ◌+◌, length, drop, MatchOption};

/// The bytes behind the first `len`, or `None` where `len` is 0.
pub(crate) fn behind(bytes: &[u8], len: usize) -> Option<&[u8]>
    requires { len ≤ length bytes.now }
    ensures { MatchOption result (len ≡ 0) (λ rest. (0 < len) × (rest.now ≡ drop len bytes.now)) }
{
    if len == 0 { None } else { Some(&bytes[len..]) }
}

/// The bytes behind the first `len`.
pub(crate) fn tail(bytes: &[u8], len: usize) -> &[u8]
    requires { len ≤ length bytes.now }
    ensures value { result.now ≡ drop len bytes.now }
    ensures room { length result.now + len ≡ length bytes.now }
{
    &bytes[len..]
}
