// The masks and CONTROL: a special register written, and what entry and return do to them.
#![tactic(auto)]

ghost use Rattle.std.specs.Prelude.{◌≡◌};
ghost use Rattle.rules.specs.Events.{with_primask, with_basepri, faultmask_written, basepri_raised, control_written, special_written};
ghost use Rattle.rules.specs.Nesting.{with_spsel, returned_masks};

use bools::both;
use rules::{Chip, Masks};

fn with_primask(mut masks: Masks, b: bool) -> Masks
    ensures { result ≡ with_primask b masks }
{
    masks.primask = b;
    masks
}

fn faultmask_written(mut masks: Masks, b: bool, negative: bool) -> Masks
    ensures { result ≡ faultmask_written b negative masks }
{
    if b {
        if negative {
            return masks;
        }
    }
    masks.faultmask = b;
    masks
}

fn with_basepri(mut masks: Masks, b: u8) -> Masks
    ensures { result ≡ with_basepri b masks }
{
    masks.basepri = b;
    masks
}

fn basepri_raised(masks: Masks, b: u8) -> Masks
    ensures { result ≡ basepri_raised b masks }
{
    if b == 0 {
        return masks;
    }
    if b < masks.basepri {
        return with_basepri(masks, b);
    }
    if masks.basepri == 0 {
        return with_basepri(masks, b);
    }
    masks
}

fn control_written(chip: Chip, mut masks: Masks, v: u32, thread: bool) -> Masks
    ensures { result ≡ control_written chip v thread masks }
{
    masks.npriv = both(!chip.is_armv6m(), bits::test_bit(v, 0));
    if thread {
        masks.spsel = bits::test_bit(v, 1);
        return masks;
    }
    masks
}

// `which` is any number: docs/TRACE-02.md names this function, and 4 and above is CONTROL.
// `negative` is whether the execution priority is below 0, `thread` whether nothing is nested.
pub fn special_written(
    chip: Chip,
    masks: Masks,
    which: u32,
    v: u32,
    negative: bool,
    thread: bool,
) -> Masks
    ensures { result ≡ special_written chip which v negative thread masks }
{
    match which {
        0 => with_primask(masks, bits::test_bit(v, 0)),
        1 => faultmask_written(masks, bits::test_bit(v, 0), negative),
        2 => with_basepri(masks, grouping::kept_byte(v, chip.bits)),
        3 => basepri_raised(masks, grouping::kept_byte(v, chip.bits)),
        _ => control_written(chip, masks, v, thread),
    }
}

pub fn with_spsel(mut masks: Masks, b: bool) -> Masks
    ensures { result ≡ with_spsel b masks }
{
    masks.spsel = b;
    masks
}

// The masks after a return with the link value v: one from NMI, exception 2, leaves FAULTMASK.
pub fn returned_masks(mut masks: Masks, from: usize, v: u32) -> Masks
    ensures { result ≡ returned_masks from v masks }
{
    masks.faultmask = both(from == 2, masks.faultmask);
    if v == 0xfffffff1 {
        return masks;
    }
    masks.spsel = v == 0xfffffffd;
    masks
}
