// Crates grouping and priority: group numbers, execution priority, the best pending exception.
use super::show::told;
use bits::bit_of;
use priority::execution_priority;
use std::io::Result;

fn groups(rt: &impl Print) -> Result<()> {
    told(
        rt,
        "group of 0x60 at p = 4, 5, 6; of 0xE0 at p = 6",
        &[
            grouping::group_of(0x60, 4),
            grouping::group_of(0x60, 5),
            grouping::group_of(0x60, 6),
            grouping::group_of(0xe0, 6),
        ],
    )?;
    let mut bytes = [0u8; 71];
    bytes[16] = 0x60;
    told(
        rt,
        "full priority of 2, 3, 16 (0x60), 17",
        &[
            grouping::full_priority(&bytes, 2),
            grouping::full_priority(&bytes, 3),
            grouping::full_priority(&bytes, 16),
            grouping::full_priority(&bytes, 17),
        ],
    )?;
    told(
        rt,
        "group of 3 at p = 0, 7; of 2 at p = 0; of 16 (0x60) at p = 5",
        &[
            grouping::group_priority(&bytes, 3, 0),
            grouping::group_priority(&bytes, 3, 7),
            grouping::group_priority(&bytes, 2, 0),
            grouping::group_priority(&bytes, 16, 5),
        ],
    )?;
    Ok(())
}

fn masks(rt: &impl Print) -> Result<()> {
    let bytes = [0u8; 71];
    let none = [false; 71];
    told(
        rt,
        "execution priority: thread mode, PRIMASK, FAULTMASK, both",
        &[
            execution_priority(&none, &bytes, 0, 0, false, false),
            execution_priority(&none, &bytes, 0, 0, true, false),
            execution_priority(&none, &bytes, 0, 0, false, true),
            execution_priority(&none, &bytes, 0, 0, true, true),
        ],
    )?;
    told(
        rt,
        "execution priority: BASEPRI 0x60 at p = 4, 5; 0x20 at p = 7; 0",
        &[
            execution_priority(&none, &bytes, 4, 0x60, false, false),
            execution_priority(&none, &bytes, 5, 0x60, false, false),
            execution_priority(&none, &bytes, 7, 0x20, false, false),
            execution_priority(&none, &bytes, 7, 0, false, false),
        ],
    )?;
    Ok(())
}

// Line 0 with 0x60 is active, then NMI over it.
fn nested(rt: &impl Print) -> Result<()> {
    let mut bytes = [0u8; 71];
    bytes[16] = 0x60;
    let mut active = [false; 71];
    active[16] = true;
    let line = execution_priority(&active, &bytes, 5, 0, false, false);
    active[2] = true;
    let mut nest = [0u8; 63];
    nest[0] = 16;
    nest[1] = 2;
    told(
        rt,
        "execution priority: 16 (0x60) at p = 5, by flags, by the nest; 2 over it and FAULTMASK",
        &[
            line,
            priority::execution_nested(&nest, 1, &bytes, 5, 0, false, false),
            execution_priority(&active, &bytes, 5, 0, false, true),
            priority::execution_nested(&nest, 2, &bytes, 5, 0, false, true),
        ],
    )?;
    Ok(())
}

// 0 for nothing.
fn best(rt: &impl Print) -> Result<()> {
    let mut bytes = [0u8; 71];
    let mut pending = [false; 71];
    let mut enabled = [false; 71];
    pending[19] = true;
    pending[25] = true;
    enabled[19] = true;
    enabled[25] = true;
    bytes[19] = 0x40;
    bytes[25] = 0x20;
    let first = priority::best_pending(&pending, &enabled, &bytes, 0, 256);
    bytes[25] = 0x40;
    let equal = priority::best_pending(&pending, &enabled, &bytes, 0, 256);
    let four_bits = priority::best_pending(&pending, &enabled, &bytes, 4, 0x60);
    let five_bits = priority::best_pending(&pending, &enabled, &bytes, 5, 0x40);
    told(
        rt,
        "best of lines 3 (0x40), 9 (0x20); of equal bytes; over 0x60 at p = 4, 5",
        &[
            first.unwrap_or(0),
            equal.unwrap_or(0),
            four_bits.unwrap_or(0),
            five_bits.unwrap_or(0),
        ],
    )?;
    told(
        rt,
        "enabled: 2, 4, 25, 71",
        &[
            bit_of(priority::is_enabled(&enabled, 2)),
            bit_of(priority::is_enabled(&enabled, 4)),
            bit_of(priority::is_enabled(&enabled, 25)),
            bit_of(priority::is_enabled(&enabled, 71)),
        ],
    )?;
    Ok(())
}

pub fn run(rt: &impl Print) -> Result<()> {
    groups(rt)?;
    masks(rt)?;
    nested(rt)?;
    best(rt)?;
    Ok(())
}
