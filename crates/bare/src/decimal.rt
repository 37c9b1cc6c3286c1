//! [`Decimal`], a number that is printed by little code.
ghost use Rattle.std.specs.Prelude.{◌≡◌, ◌≤◌, drop, Some, decimal, IsAscii};

use std::fmt;
use std::fmt::{Display, Formatter};

// The most digits of a number.
const DIGITS: usize = 20;

// A number, whose digits are made by one function. The code of a number's own `Display` is in line at each place.
#[derive(Clone, Copy, Drop)]
pub(crate) struct Decimal {
    pub(crate) value: u64,
}

// Writes the digits of a number at the end of `room`, and returns where they start.
#[inline(never)]
fn digits(value: u64, room: &mut [u8; DIGITS]) -> usize
    ensures within { result ≤ 20 }
    ensures written { drop result room.new ≡ decimal value }
    ensures ascii { IsAscii (decimal value) }
{
    let mut at = DIGITS;
    let mut rest = value;
    'digits: while rest >= 10 {
        at -= 1;
        room[at] = b'0' + (rest % 10) as u8;
        rest /= 10;
    }
    room[at - 1] = b'0' + rest as u8;
    at - 1
}

impl Display for Decimal {
    ghost output = { λ n. Some (decimal n.value) };

    #[inline(always)]
    fn fmt<W: fmt::Write>(&self, f: &mut Formatter<W>) -> fmt::Result {
        let mut room = [0u8; DIGITS];
        let start = digits(self.value, &mut room);
        let all = &room[..];
        f.write_str(unsafe { std::str::from_utf8_unchecked(&all[start..]) })
    }
}
