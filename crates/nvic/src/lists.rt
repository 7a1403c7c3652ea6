// A list read and stored at an index. Past the end it reads as a default and takes nothing.
ghost use Rattle.std.specs.Prelude.{◌≡◌, get_or, set};

pub fn at_or<T: Copy>(xs: &[T], n: usize, otherwise: T) -> T
    ensures { result ≡ get_or xs.now n otherwise }
{
    xs.get(n).copied().unwrap_or(otherwise)
}

pub fn store<T: Copy>(xs: &mut [T], n: usize, x: T)
    ensures { xs.new ≡ set xs.old n x }
{
    if n < xs.len() {
        xs[n] = x;
    }
}
