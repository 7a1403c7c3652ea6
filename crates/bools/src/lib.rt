// Tests: two of them as one, and what the proofs of every crate say about tests (specs/).
#![tactic(auto)]

ghost use Rattle.std.specs.Prelude.{◌≡◌, ◌&&◌};

// The operator by name, for callers whose proofs cite its clause.
pub fn both(a: bool, b: bool) -> bool
    ensures { result ≡ a && b }
{
    a && b
}
