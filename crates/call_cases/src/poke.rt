// Fields put into a state as no call would put them.
use model::State;
use mpu::Mpu;
use rules::{Core, Masks, System};
use systick::Timer;

// A flag or a priority byte: they are held for the numbers 0 to 70. Past the last nothing is changed.
fn poke_number(s: &mut State, field: &[u8], n: usize, v: u32) {
    if 71 <= n {
        return;
    }
    match field {
        b"pend" => s.pending[n] = v == 1,
        b"acti" => s.active[n] = v == 1,
        b"enab" => s.enabled[n] = v == 1,
        b"leve" => s.level[n] = v == 1,
        b"prio" => s.priority[n] = bits::byte_of(v, 0),
        _ => {}
    }
}

// A place of the nest, which has one for each of the 63 exceptions, or a count, of each of the 55 lines. Past the last nothing is changed.
fn poke_place(s: &mut State, field: &[u8], n: usize, v: u32) {
    match field {
        b"nest" if n < 63 => s.nest[n] = bits::byte_of(v, 0),
        b"lost" if n < 55 => s.lost[n] = (v % 65536) as u16,
        _ => {}
    }
}

fn poke_masks(m: &mut Masks, field: &[u8], v: u32) {
    match field {
        b"base" => m.basepri = bits::byte_of(v, 0),
        b"npri" => m.npriv = v == 1,
        b"spse" => m.spsel = v == 1,
        _ => {}
    }
}

fn poke_system(x: &mut System, field: &[u8], v: u32) {
    match field {
        b"vtab" => x.vtable = v,
        b"sysc" => x.sysctrl = v,
        b"cfgc" => x.cfgctrl = v,
        b"faul" => x.faultstat = v,
        b"hfau" => x.hfaultstat = v,
        _ => {}
    }
}

fn poke_timer(t: &mut Timer, field: &[u8], v: u32) {
    match field {
        b"stct" => t.control = v,
        b"stre" => t.reload = v,
        b"stcu" => t.current = v,
        _ => {}
    }
}

// Of MAIR0 and MAIR1 the one that i names.
fn poke_guard(g: &mut Mpu, field: &[u8], n: usize, v: u32) {
    if 8 <= n {
        return;
    }
    match field {
        b"guar" => g.control = v,
        b"regi" => g.region = v,
        b"rbas" => g.bases[n] = v,
        b"attr" => g.attributes[n] = v,
        b"mair" if n == 0 => g.mair0 = v,
        b"mair" => g.mair1 = v,
        _ => {}
    }
}

fn poke_core(c: &mut Core, field: &[u8], n: usize, v: u32) {
    match field {
        b"dept" => c.depth = v as usize,
        b"grou" => c.group = v,
        _ => {}
    }
    poke_masks(&mut c.masks, field, v);
    poke_system(&mut c.system, field, v);
    poke_timer(&mut c.timer, field, v);
    poke_guard(&mut c.guard, field, n, v);
}

// A field by its first four letters; of a list the element i.
pub fn poked(mut s: State, field: &[u8], i: u32, v: u32) -> State {
    let n = i as usize;
    poke_number(&mut s, field, n, v);
    poke_place(&mut s, field, n, v);
    poke_core(&mut s.core, field, n, v);
    s
}

// Every exception.
const ALL: [u8; 63] = [
    2, 3, 4, 5, 6, 11, 14, 15, 16, 17, 18, 19, 20, 21, 22, 23, 24, 25, 26, 27, 28, 29, 30, 31, 32,
    33, 34, 35, 36, 37, 38, 39, 40, 41, 42, 43, 44, 45, 46, 47, 48, 49, 50, 51, 52, 53, 54, 55, 56,
    57, 58, 59, 60, 61, 62, 63, 64, 65, 66, 67, 68, 69, 70,
];

// Every exception active and nested.
pub fn filled(mut s: State) -> State {
    let mut flags = [true; 71];
    for i in [0, 1, 7, 8, 9, 10, 12, 13] {
        flags[i] = false;
    }
    s.active = flags;
    s.nest = ALL;
    s.core.depth = 63;
    s
}
