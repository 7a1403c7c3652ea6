// Full priorities and group numbers.
#![tactic(auto)]

ghost use Rattle.std.specs.Prelude.{◌≡◌, pos};
ghost use Rattle.grouping.specs.Grouping.{kept_byte, group_of, grouped, full_priority, group_priority};

// The low byte of b, cut to its upper w bits; the whole byte where w is 8 or more.
pub fn kept_byte(b: u32, w: u32) -> u8
    ensures { result ≡ kept_byte w b }
{
    if 8 <= w {
        return (b % 256) as u8;
    }
    let cut = 8 - w;
    ((b % 256) >> cut << cut) as u8
}

// The priority b with bits p:0 cleared. APINT holds p below 8; any other is answered too.
#[tactic(auto, using(crate::proofs::Laws::cut_whole))]
pub fn group_of(b: u32, p: u32) -> u32
    ensures { result ≡ group_of p b }
{
    if 31 <= p {
        return 0;
    }
    let cut = p + 1;
    b >> cut << cut
}

// A priority's group number: the fixed, negative ones are their own.
pub fn grouped(z: i32, p: u32) -> i32
    ensures { result ≡ grouped p z }
{
    if z < 0 {
        return z;
    }
    group_of(z as u32, p) as i32
}

// The library's conversion by name: clauses speak of `pos`.
pub fn signed(b: u8) -> i32
    ensures { result ≡ pos b }
{
    i32::from(b)
}

// NMI's -2, HardFault's -1, else the byte; 0 past the end of the bytes.
pub fn full_priority(priority: &[u8], n: usize) -> i32
    ensures { result ≡ full_priority priority.now n }
{
    match n {
        2 => -2,
        3 => -1,
        _ => signed(priority.get(n).copied().unwrap_or(0)),
    }
}

pub fn group_priority(priority: &[u8], n: usize, p: u32) -> i32
    ensures { result ≡ group_priority p priority.now n }
{
    grouped(full_priority(priority, n), p)
}
