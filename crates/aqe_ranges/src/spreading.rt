//! Places that are spread evenly over a list.

ghost use Rattle.std.specs.Prelude.{◌≡◌, ◌<◌, ◌*◌, ◌/◌};

/// The place of number `i` of so many that are spread evenly over a list.
pub(crate) fn even_place(i: usize, len: usize, count: usize) -> usize
    requires number { i < count }
    requires some { 0 < len }
    ensures value { result ≡ i * len / count }
    ensures within { result < len }
{
    (i as u128 * len as u128 / count as u128) as usize
}
