// The front of a slice.
ghost use Rattle.std.specs.Prelude.{◌≡◌, take};

// The first n elements, all where there are fewer.
pub fn front<T>(b: &[T], n: usize) -> &[T]
    ensures { result.now ≡ take n b.now }
{
    &b[..n.min(b.len())]
}
