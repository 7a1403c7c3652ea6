// Crates bits and flag_words: fields of registers, and flags as words.
use super::show::told;
use bits::bit_of;
use std::io::Result;

fn fields(rt: &impl Print) -> Result<()> {
    told(
        rt,
        "APINT 0x05FA0700, 31:16 and 10:8",
        &[
            bits::field(0x05fa0700, 31, 16),
            bits::field(0x05fa0700, 10, 8),
        ],
    )?;
    told(
        rt,
        "VTABLE keeps of all ones; FAULTSTAT 0x8200 with 0x8000 written",
        &[
            bits::kept_bits(0xffffffff, 29, 9),
            bits::clear_ones(0x8200, 0x8000),
        ],
    )?;
    told(
        rt,
        "HFAULTSTAT bit 30 set, set again, cleared, cleared again",
        &[
            bits::set_bit(0, 30),
            bits::set_bit(0x40000000, 30),
            bits::clear_bit(0x40000000, 30),
            bits::clear_bit(0, 30),
        ],
    )?;
    told(
        rt,
        "CFGCTRL 0x200, bits 9 and 1; byte 3 of 0x44332211; bytes 1, 2, 3, 4",
        &[
            bit_of(bits::test_bit(0x200, 9)),
            bit_of(bits::test_bit(0x200, 1)),
            bits::wide(bits::byte_of(0x44332211, 3)),
            bits::word_of_bytes(1, 2, 3, 4),
        ],
    )?;
    Ok(())
}

// Flag 48 is line 32, flag 70 the last.
fn flags(rt: &impl Print) -> Result<()> {
    let all = [true; 71];
    told(
        rt,
        "all flags set, read from 16, 48, 71, 1000",
        &[
            flag_words::flags_word(&all, 16),
            flag_words::flags_word(&all, 48),
            flag_words::flags_word(&all, 71),
            flag_words::flags_word(&all, 1000),
        ],
    )?;
    let mut some = [false; 71];
    flag_words::set_flags(&mut some, 48, 0xffffffff);
    flag_words::clear_flags(&mut some, 48, 0xfffffffd);
    told(
        rt,
        "ones written from 48 on, all but 49 cleared: from 48, 16; any from 49, 50",
        &[
            flag_words::flags_word(&some, 48),
            flag_words::flags_word(&some, 16),
            bit_of(flag_words::any_flag(&some, 49)),
            bit_of(flag_words::any_flag(&some, 50)),
        ],
    )?;
    Ok(())
}

pub fn run(rt: &impl Print) -> Result<()> {
    fields(rt)?;
    flags(rt)?;
    Ok(())
}
