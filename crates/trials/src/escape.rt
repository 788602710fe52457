// Escaped text: `\t`, `\n`, `\\` and `\xNN` stand for bytes that do not print.
ghost use Rattle.std.specs.Prelude.{◌≡◌, IfOk, Some};
ghost use Rattle.trials.specs.Escapes.{hex_of, step_of, unescaped};

use anyhow::anyhow;
use std::alloc::Global;

// What of an escape has been read.
#[derive(Clone, Copy)]
enum Escape {
    Nothing,
    Backslash,
    Hex,
    HexDigit(u8),
}

// What a byte of escaped text makes: nothing yet, or a byte.
#[derive(Clone, Copy)]
enum Step {
    On(Escape),
    Byte(u8),
}

// The value of a hexadecimal digit.
fn hex(byte: u8) -> Option<u8>
    ensures { result ≡ hex_of byte }
{
    match byte {
        b'0'..=b'9' => Some(byte - b'0'),
        b'a'..=b'f' => Some(byte - b'a' + 10),
        _ => None,
    }
}

impl Escape {
    // What one more byte makes; none if no escape goes on with it.
    fn step(self, byte: u8) -> Option<Step>
        ensures { result ≡ step_of self byte }
    {
        match self {
            Escape::Nothing if byte == b'\\' => Some(Step::On(Escape::Backslash)),
            Escape::Nothing => Some(Step::Byte(byte)),
            Escape::Backslash => match byte {
                b't' => Some(Step::Byte(b'\t')),
                b'n' => Some(Step::Byte(b'\n')),
                b'\\' => Some(Step::Byte(b'\\')),
                b'x' => Some(Step::On(Escape::Hex)),
                _ => None,
            },
            Escape::Hex => hex(byte).map(|high| Step::On(Escape::HexDigit(high))),
            Escape::HexDigit(high) => {
                hex(byte).map(|low| Step::Byte(high.wrapping_mul(16).wrapping_add(low)))
            }
        }
    }
}

// The bytes that an escaped text stands for.
pub(crate) fn unescape(heap: Global, text: &[u8]) -> anyhow::Result<Vec<u8>>
    ensures { IfOk result (λ v. unescaped text.now ≡ Some v.items) }
{
    let mut bytes = Vec::new(heap);
    let mut escape = Escape::Nothing;
    for b in text {
        // no `ok_or_else`: it would make a Result, which is as large as its error, for each byte
        let Some(step) = escape.step(*b) else {
            return Err(anyhow!("an escape that is not known"));
        };
        match step {
            Step::On(next) => escape = next,
            Step::Byte(byte) => {
                bytes.push(byte)?;
                escape = Escape::Nothing;
            }
        }
    }
    match escape {
        Escape::Nothing => Ok(bytes),
        _ => Err(anyhow!("an escape that does not end")),
    }
}
