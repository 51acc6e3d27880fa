// The least and the most of two numbers.
ghost use Rattle.std.specs.Prelude.{◌≡◌, max, min};

pub fn least(a: usize, b: usize) -> usize
    ensures { result ≡ min a b }
{
    a.min(b)
}

pub fn most(a: usize, b: usize) -> usize
    ensures { result ≡ max a b }
{
    a.max(b)
}
