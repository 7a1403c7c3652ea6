// Words and numbers of a line.
ghost use Rattle.std.specs.Prelude.{◌<◌};

// The first four letters of a word, or all. NUL bytes before them do not count.
pub fn letters(word: &[u8]) -> &[u8] {
    let nuls = word.iter().take_while(|b| **b == 0).count();
    let name = word.get(nuls..).unwrap_or(&[]);
    name.get(..4).unwrap_or(name)
}

// The digit that a byte is; of any other byte, some digit.
fn digit(b: u8) -> u32
    ensures { result < 16 }
{
    let n = u32::from(b);
    if n < 64 { n % 16 } else { (n + 9) % 16 }
}

// A number: decimal, or hexadecimal after 0x with the digits A to F. It has room for eight digits if it is hexadecimal, for nine if it is decimal.
pub fn number(word: &[u8]) -> u32 {
    let mut hex = false;
    let mut value: u32 = 0;
    for b in word {
        let low = value % 0x10000000;
        if *b == b'x' {
            hex = true;
            value = 0;
        } else if hex {
            value = low * 16 + digit(*b);
        } else {
            value = low * 10 + digit(*b);
        }
    }
    value
}
