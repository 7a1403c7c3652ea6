// The nest: its top, and the link values that it admits.
ghost use Rattle.std.specs.Prelude.{◌≡◌};
ghost use Rattle.rules.specs.Model.{down, top};
ghost use Rattle.rules.specs.Nesting.{link_fits};

use super::lists::at_or;

// The newest of the nest, 0 where nothing is nested.
pub fn top_of(nest: &[u8], depth: usize) -> u32
    ensures { result ≡ top (down nest.now depth) }
{
    if depth == 0 {
        return 0;
    }
    bits::wide(at_or(nest, depth - 1, 0))
}

// Whether a return with the link value v fits the number nested.
pub fn link_fits(depth: usize, v: u32) -> bool
    ensures { result ≡ link_fits depth v }
{
    match v {
        0xfffffff1 => 1 < depth,
        0xfffffff9 => depth == 1,
        0xfffffffd => depth == 1,
        _ => false,
    }
}
