#![tactic(auto)]

ghost use Rattle.std.specs.Prelude.{◌≡◌, ◌+◌, ◌≤◌, length};
ghost use Rattle.std.proofs.lemmas.List.Edits.{sets};
ghost use Rattle.bits.specs.Words.{with_bit};
ghost use Rattle.frame.specs.Answers.{stack_answer, unstack_answer};
ghost use Rattle.frame.specs.Frame.{window_fits, holds_frame, padded, frame_at, stored_words, stack_fits, checked, stacked, listed, word_bytes, frame_bytes, stacked_window, word_at, words_at, restored_sp, unstack_fits, unstacked};

use refusals::Refusal;

// The words of an exception frame, in the order of their addresses; pc is the return address.
#[derive(Clone, Copy)]
pub struct Words {
    pub r0: u32,
    pub r1: u32,
    pub r2: u32,
    pub r3: u32,
    pub r12: u32,
    pub lr: u32,
    pub pc: u32,
    pub xpsr: u32,
}

// The restored SP and the words as stored.
#[derive(Clone, Copy)]
pub struct Unstacked {
    pub sp: u32,
    pub words: Words,
}

fn window_fits(base: u32, len: usize) -> bool
    ensures { result ≡ window_fits base len }
{
    if len > 65536 {
        return false;
    }
    if base % 4 != 0 {
        return false;
    }
    base as usize + len <= 4294967296
}

fn holds_frame(base: u32, len: usize, frame: u32) -> bool
    ensures { result ≡ holds_frame base len frame }
{
    if frame < base {
        return false;
    }
    (frame - base) as usize + 32 <= len
}

// Only for an SP that `stack_fits` let through, as in `frame_at` and `in_order`.
fn is_padded(align: bool, sp: u32) -> bool
    requires { 32 ≤ sp }
    ensures { result ≡ padded align sp }
{
    if align {
        return bits::test_bit(sp - 32, 2);
    }
    false
}

fn frame_at(align: bool, sp: u32) -> u32
    requires { 32 ≤ sp }
    ensures { result ≡ frame_at align sp }
{
    if align {
        return bits::clear_bit(sp - 32, 2);
    }
    sp - 32
}

fn stack_fits(base: u32, len: usize, sp: u32, align: bool) -> bool
    ensures { result ≡ stack_fits base len sp align }
{
    if sp % 4 != 0 {
        return false;
    }
    if sp < 32 {
        return false;
    }
    holds_frame(base, len, frame_at(align, sp))
}

// Document 01's refusals in their order.
#[tactic(auto, unfolding(crate::specs::Frame::checked))]
fn check(window: bool, frame: bool) -> Result<(), Refusal>
    ensures { result ≡ checked window frame }
{
    if !window {
        return Err(Refusal::Window);
    }
    if !frame {
        return Err(Refusal::Frame);
    }
    Ok(())
}

fn mark_padding(xpsr: u32, padded: bool) -> u32
    ensures { result ≡ with_bit 9 padded xpsr }
{
    if padded {
        return bits::set_bit(xpsr, 9);
    }
    bits::clear_bit(xpsr, 9)
}

// The words in the order of their addresses, with the padding marked in xPSR.
fn in_order(words: Words, align: bool, sp: u32) -> [u32; 8]
    requires { 32 ≤ sp }
    ensures { result ≡ listed (stored_words align sp words) }
{
    let xpsr = mark_padding(words.xpsr, is_padded(align, sp));
    [
        words.r0, words.r1, words.r2, words.r3, words.r12, words.lr, words.pc, xpsr,
    ]
}

// A word, little-endian, at an offset of what is lent.
fn put_word(part: &mut [u8], at: usize, w: u32)
    requires { at + 4 ≤ length part.old }
    ensures { part.new ≡ sets part.old at (word_bytes w) }
{
    part[at] = bits::byte_of(w, 0);
    part[at + 1] = bits::byte_of(w, 1);
    part[at + 2] = bits::byte_of(w, 2);
    part[at + 3] = bits::byte_of(w, 3);
}

// The eight words, one after the other, over the whole of what is lent: `stack` lends 32 bytes.
fn put_words(part: &mut [u8], words: &[u32; 8])
    requires { (length part.old ≡ 32) × (length words.now ≡ 8) }
    ensures { part.new ≡ frame_bytes words.now }
{
    for k in 0..8 {
        put_word(part, 4 * k, words[k]);
    }
}

// Writes a frame below SP into the window and answers where it is. A refusal changes no byte.
pub fn stack(
    base: u32,
    window: &mut [u8],
    sp: u32,
    words: Words,
    align: bool,
) -> Result<u32, Refusal>
    ensures value { result ≡ stacked base (length window.old) sp align }
    ensures bytes { window.new ≡ stacked_window base window.old sp words align }
    ensures numbers { stack_answer result ≡ stack_answer (stacked base (length window.old) sp align) }
{
    let len = window.len();
    check(window_fits(base, len), stack_fits(base, len, sp, align))?;
    let frame = frame_at(align, sp);
    let start = (frame - base) as usize;
    let end = start + 32;
    let list = in_order(words, align, sp);
    put_words(&mut window[start..end], &list);
    Ok(frame)
}

fn unstack_fits(base: u32, len: usize, sp: u32) -> bool
    ensures { result ≡ unstack_fits base len sp }
{
    if sp % 4 != 0 {
        return false;
    }
    if !holds_frame(base, len, sp) {
        return false;
    }
    sp as usize + 32 < 4294967296
}

// Only for an SP that `unstack_fits` let through.
fn restored_sp(align: bool, sp: u32, xpsr: u32) -> u32
    requires { sp + 32 ≤ 4294967295 }
    ensures { result ≡ restored_sp align sp xpsr }
{
    let above = sp + 32;
    if !align {
        return above;
    }
    if !bits::test_bit(xpsr, 9) {
        return above;
    }
    bits::set_bit(above, 2)
}

fn get_word(window: &[u8], at: usize) -> u32
    requires { at + 4 ≤ length window.now }
    ensures { result ≡ word_at window.now at }
{
    bits::word_of_bytes(window[at], window[at + 1], window[at + 2], window[at + 3])
}

fn get_words(window: &[u8], at: usize) -> Words
    requires { at + 32 ≤ length window.now }
    ensures { result ≡ words_at window.now at }
{
    Words {
        r0: get_word(window, at),
        r1: get_word(window, at + 4),
        r2: get_word(window, at + 8),
        r3: get_word(window, at + 12),
        r12: get_word(window, at + 16),
        lr: get_word(window, at + 20),
        pc: get_word(window, at + 24),
        xpsr: get_word(window, at + 28),
    }
}

// Reads the frame at SP and answers its words and the SP that its stacking took.
pub fn unstack(base: u32, window: &[u8], sp: u32, align: bool) -> Result<Unstacked, Refusal>
    ensures value { result ≡ unstacked base window.now sp align }
    ensures numbers { unstack_answer result ≡ unstack_answer (unstacked base window.now sp align) }
{
    let len = window.len();
    check(window_fits(base, len), unstack_fits(base, len, sp))?;
    let words = get_words(window, (sp - base) as usize);
    let sp = restored_sp(align, sp, words.xpsr);
    Ok(Unstacked { sp, words })
}
