// Atoms as words: a number, tests joined by `+`, or `none`.
ghost use Rattle.std.specs.Prelude.{◌≡◌, ◌<◌, [], IfSome, Some};
ghost use Rattle.requests.specs.Words.{word_atom, append_digit, number_written, tests_on, joined, test_in};

use atoms::{ATOMS, Test};
use std::fmt;
use words::{Word, known};

// The test that the letters name, if there is one.
fn test_of(letters: &[u8]) -> Option<Test>
    ensures { result ≡ test_in letters.now }
{
    match known(letters) {
        Some(Word::Test(test)) => Some(test),
        _ => None,
    }
}

// The atom with one test more; none if the letters name no test, or one that holds already.
fn with_test(atom: u8, letters: &[u8]) -> Option<u8>
    requires { atom < 64 }
    ensures is { result ≡ joined atom (test_in letters.now) }
    ensures small { IfSome result (λ a. a < 64) }
{
    let test = test_of(letters)?;
    if test.set().contains(atom) {
        return None;
    }
    Some(atom + test.weight())
}

// The atom of tests joined by `+`, each at most once.
fn tests_of(word: &[u8]) -> Option<u8>
    ensures { result ≡ tests_on (Some 0) [] word.now }
{
    let mut atom = 0;
    for letters in word.split(|b| *b == b'+') {
        atom = with_test(atom, letters)?;
    }
    Some(atom)
}

// The number with one decimal digit more; none if the byte is no digit, or past 255.
fn with_digit(number: u8, byte: u8) -> Option<u8>
    ensures { result ≡ append_digit number byte }
{
    if !byte.is_ascii_digit() {
        return None;
    }
    let more = 10 * u16::from(number) + u16::from(byte - b'0');
    u8::try_from(more).ok()
}

// The number up to 255 that decimal digits write; not by `parse`, which takes a plus before them.
fn number_of(word: &[u8]) -> Option<u8>
    ensures { result ≡ number_written word.now }
{
    if word.is_empty() {
        return None;
    }
    let mut number = 0;
    for b in word {
        number = with_digit(number, *b)?;
    }
    Some(number)
}

// The atom that a word writes, if it is one.
pub fn atom_of(word: &[u8]) -> Option<u8>
    ensures { result ≡ word_atom word.now }
{
    if word == b"none".as_slice() {
        return Some(0);
    }
    number_of(word).or_else(|| tests_of(word))
}

// The tests of an atom.
#[derive(Clone, Copy)]
pub struct Tests(pub u8);

impl fmt::Display for Tests {
    fn fmt<W: fmt::Write>(&self, f: &mut fmt::Formatter<W>) -> fmt::Result {
        let atom = self.0;
        if atom == 0 {
            return f.write_str("none");
        }
        if atom >= ATOMS {
            return f.write_str("no atom");
        }
        let mut between = "";
        for test in Test::ALL {
            if test.set().contains(atom) {
                write!(f, "{between}{test}")?;
                between = "+";
            }
        }
        Ok(())
    }
}
