// Where in the lines of a text a place is.
ghost use Rattle.std.specs.Prelude.{◌≡◌, ◌+◌, ◌^◌, ◌<◌, take, if◌then◌else◌, nat_eq};
ghost use Rattle.requests.specs.Places.{breaks, since};

use std::fmt;

// How many lines end before a place, and how many bytes of its own line stand before it.
#[derive(Clone, Copy, Default)]
pub struct Spot {
    lines: usize,
    bytes: usize,
}

impl Spot {
    // The spot of a place in a text; behind the text it is that of the text's end.
    pub fn of(text: &[u8], place: usize) -> Spot
        ensures lines { result.lines ≡ breaks 0 (take place text.now) }
        ensures bytes { result.bytes ≡ since 0 (take place text.now) }
    {
        let before = &text[..place.min(text.len())];
        let mut spot = Spot::default();
        for b in before {
            spot = spot.past(*b);
        }
        spot
    }

    // The spot behind one more byte.
    fn past(self, byte: u8) -> Spot
        requires lines { self.lines + 1 < 2 ^ 64 }
        requires bytes { self.bytes + 1 < 2 ^ 64 }
        ensures lines { result.lines ≡ (if nat_eq byte 10 then self.lines + 1 else self.lines) }
        ensures bytes { result.bytes ≡ (if nat_eq byte 10 then 0 else self.bytes + 1) }
    {
        if byte == b'\n' {
            Spot {
                lines: self.lines + 1,
                bytes: 0,
            }
        } else {
            Spot {
                lines: self.lines,
                bytes: self.bytes + 1,
            }
        }
    }
}

// Lines and columns count from 1.
impl fmt::Display for Spot {
    fn fmt<W: fmt::Write>(&self, f: &mut fmt::Formatter<W>) -> fmt::Result {
        // no `From` widens a usize
        let line = self.lines as u128 + 1;
        let column = self.bytes as u128 + 1;
        write!(f, "line {line}, column {column}")
    }
}
