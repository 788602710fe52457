// Tokens of a script, and the reader that hands them out.
#![tactic(auto)]

ghost use Rattle.std.specs.Prelude.{◌≡◌, ℕ, Bool, ◌+◌, ◌≤◌, length, drop, IfOk, Some, None, Ok, Err};
ghost use Rattle.std.specs.List.{prefix_len};
ghost use Rattle.tokens.specs.Classes.{mark_of};
ghost use Rattle.tokens.specs.Tokens.{lexeme, token_place, mark_place, IsWordPlace, seen_at, Digits, numbered, token_from, next_token};
ghost use Rattle.tokens.specs.Streams.{left, Took, Accepts, Expects, begins, past, by_place, past_by, begins_else, past_else, expected, expected_p, expected_number, expected_end};

use automata::Fault;
use words::{Word, known};

mod lent;

pub use lent::Reader;

#[derive(Clone, Copy, Debug, PartialEq, Eq)]
pub enum Mark {
    OpenBrace,
    CloseBrace,
    OpenParen,
    CloseParen,
    OpenBracket,
    CloseBracket,
    Semicolon,
    Not,
    And,
    Or,
    Minus,
}

// A token with its place. A word is that part of the text itself.
#[derive(Clone, Copy, Debug, PartialEq, Eq)]
pub enum Token<'a> {
    Word {
        place: usize,
        text: &'a [u8],
        word: Word,
    },
    Number {
        place: usize,
        value: u8,
    },
    Mark {
        place: usize,
        mark: Mark,
    },
    End {
        place: usize,
    },
}

impl Token<'_> {
    // Where the token begins; for the end, where the text ends.
    pub fn place(&self) -> usize
        ensures { result ≡ token_place self.now }
    {
        match *self {
            Token::Word { place, .. } | Token::Number { place, .. } => place,
            Token::Mark { place, .. } | Token::End { place } => place,
        }
    }

    // Its place, if it is this mark. It and `if_word` are two: a mark and a word are fields of unlike cases.
    fn if_mark(self, mark: Mark) -> Option<usize>
        ensures { result ≡ mark_place mark self.entry }
    {
        match self {
            Token::Mark { place, mark: found } if found == mark => Some(place),
            _ => None,
        }
    }

    // Its place, if it is this word.
    fn if_word(self, word: Word) -> Option<usize>
        ensures { IsWordPlace word self.entry result }
    {
        match self {
            Token::Word {
                place,
                word: found,
                ..
            } if found == word => Some(place),
            _ => None,
        }
    }
}

impl Mark {
    // The mark that a byte writes, if there is one. `TryFrom` would be no plainer: its error would be dropped for the fault with its place.
    fn from_byte(b: u8) -> Option<Mark>
        ensures { result ≡ mark_of b }
    {
        match b {
            b'{' => Some(Mark::OpenBrace),
            b'}' => Some(Mark::CloseBrace),
            b'(' => Some(Mark::OpenParen),
            b')' => Some(Mark::CloseParen),
            b'[' => Some(Mark::OpenBracket),
            b']' => Some(Mark::CloseBracket),
            b';' => Some(Mark::Semicolon),
            b'!' => Some(Mark::Not),
            b'&' => Some(Mark::And),
            b'|' => Some(Mark::Or),
            b'-' => Some(Mark::Minus),
            _ => None,
        }
    }
}

// Where the longest run of bytes that fit ends.
fn run_end<F: Fn(u8) -> bool>(text: &[u8], from: usize, fits: F) -> usize
    ghost test: { ℕ → Bool }
    requires begin { from ≤ length text.now }
    requires callable { F.IsAlwaysCallable fits }
    requires tells { (b : ℕ) (r : Bool) → F.post fits b r → r ≡ test b }
    ensures is { result ≡ from + prefix_len test (drop from text.now) }
    ensures within { result ≤ length text.now }
    ensures after { from ≤ result }
{
    from + text[from..].iter().take_while(|b| fits(**b)).count()
}

// A number is at most this, and has at most so many digits.
const LARGEST: u8 = 127;

const MOST_DIGITS: usize = 3;

// The number that the digits write, or the fault that it is too large. A loop, since in a `fold` it is not proved that the sums fit.
#[tactic(auto, using(std::proofs::lemmas::List::Sums::fold_more))]
fn number(place: usize, digits: &[u8]) -> Result<u8, Fault>
    requires { Digits digits.now }
    ensures { result ≡ numbered place digits.now }
{
    if digits.len() > MOST_DIGITS {
        return Err(Fault::LargeNumber(place));
    }
    let mut value = 0;
    for d in digits {
        value = value * 10 + u16::from(*d - b'0');
    }
    u8::try_from(value)
        .ok()
        .filter(|value| *value <= LARGEST)
        .ok_or(Fault::LargeNumber(place))
}

// The token at a place where no blank stands, and the position after it.
#[tactic(auto, using(crate::proofs::Runs::digits_part))]
fn token_at<'a>(text: &'a [u8], place: usize) -> Result<(Token<'a>, usize), Fault>
    requires { place ≤ length text.now }
    ensures told { seen_at result ≡ token_from text.now place }
    ensures within { IfOk result (λ t. t.1 ≤ length text.now) }
{
    let Some(&first) = text.get(place) else {
        return Ok((Token::End { place }, place));
    };
    if first.is_ascii_lowercase() {
        let end = run_end(text, place, |b| b.is_ascii_lowercase());
        let letters = &text[place..end];
        let word = known(letters).ok_or(Fault::UnknownWord(place))?;
        return Ok((
            Token::Word {
                place,
                text: letters,
                word,
            },
            end,
        ));
    }
    if first.is_ascii_digit() {
        let end = run_end(text, place, |b| b.is_ascii_digit());
        let value = number(place, &text[place..end])?;
        return Ok((Token::Number { place, value }, end));
    }
    let mark = Mark::from_byte(first).ok_or(Fault::StrayByte(place))?;
    Ok((Token::Mark { place, mark }, place + 1))
}

impl<'a> Reader<'a> {
    // The next token; the reader stands after it then. On a fault it stays where it was.
    #[tactic(auto, using(crate::proofs::Positions::next_from_place, crate::proofs::Streams::took_from_token))]
    pub fn next(&mut self) -> Result<Token<'a>, Fault>
        ensures told { elim result [ Ok t ↦ next_token self.old.text.now self.old.at ≡ Ok (lexeme t, self.new.at) | Err f ↦ (next_token self.old.text.now self.old.at ≡ Err f) × (self.new.at ≡ self.old.at) ] }
        ensures kept { self.new.text ≡ self.old.text }
        ensures took { Took (left self.old) result (left self.new) }
    {
        let place = run_end(self.text, self.at, |b| matches!(b, b' ' | b'\t' | b'\n'));
        let (token, end) = token_at(self.text, place)?;
        self.at = end;
        Ok(token)
    }

    // What the test makes of the next token, which is then taken; where it makes nothing of it, or the token is faulty, the reader stays where it was.
    fn accept_if<T, F: FnOnce(Token<'a>) -> Option<T>>(&mut self, test: F) -> Option<T>
        requires { F.IsAlwaysCallable test }
        ensures is { Accepts (F.post test) (left self.old) result (left self.new) }
        ensures kept { self.new.text ≡ self.old.text }
    {
        let before = self.at;
        let found = self.next().ok().and_then(test);
        if found.is_none() {
            self.at = before;
        }
        found
    }

    // What the test makes of the next token, where nothing else is allowed.
    fn expect_if<T, F: FnOnce(Token<'a>) -> Option<T>>(&mut self, test: F) -> Result<T, Fault>
        requires { F.IsAlwaysCallable test }
        ensures is { Expects (F.post test) (left self.old) result (left self.new) }
        ensures kept { self.new.text ≡ self.old.text }
    {
        let token = self.next()?;
        test(token).ok_or(Fault::Unexpected(token.place()))
    }

    // Takes the mark if it comes next, and else leaves the reader where it was.
    pub fn accept(&mut self, mark: Mark) -> bool
        ensures is { result ≡ begins mark (left self.old) }
        ensures rest { left self.new ≡ past mark (left self.old) }
        ensures kept { self.new.text ≡ self.old.text }
    {
        self.accept_if(|token| token.if_mark(mark)).is_some()
    }

    // The place of the word `by` if it comes next, which is then taken; else the reader stays where it was.
    pub fn accept_by(&mut self) -> Option<usize>
        ensures is { result ≡ by_place (left self.old) }
        ensures rest { left self.new ≡ past_by (left self.old) }
        ensures kept { self.new.text ≡ self.old.text }
    {
        self.accept_if(|token| token.if_word(Word::By))
    }

    // Takes the word `else` if it comes next, and else leaves the reader where it was.
    pub fn accept_else(&mut self) -> bool
        ensures is { result ≡ begins_else (left self.old) }
        ensures rest { left self.new ≡ past_else (left self.old) }
        ensures kept { self.new.text ≡ self.old.text }
    {
        self.accept_if(|token| token.if_word(Word::Else)).is_some()
    }

    // The mark's place, where nothing else is allowed.
    pub fn expect(&mut self, mark: Mark) -> Result<usize, Fault>
        ensures told { elim result [ Ok p ↦ expected mark (left self.old) ≡ Ok (p, left self.new) | Err f ↦ expected mark (left self.old) ≡ Err f ] }
        ensures kept { self.new.text ≡ self.old.text }
    {
        self.expect_if(|token| token.if_mark(mark))
    }

    // The word `p`, where nothing else is allowed.
    pub fn expect_p(&mut self) -> Result<(), Fault>
        ensures told { elim result [ Ok u ↦ expected_p (left self.old) ≡ Ok (left self.new) | Err f ↦ expected_p (left self.old) ≡ Err f ] }
        ensures kept { self.new.text ≡ self.old.text }
    {
        self.expect_if(|token| token.if_word(Word::P)).map(|_| ())
    }

    // The value of a number, where nothing else is allowed.
    #[tactic(auto, using(crate::proofs::Streams::number_ahead))]
    pub fn expect_number(&mut self) -> Result<u8, Fault>
        ensures told { elim result [ Ok v ↦ expected_number (left self.old) ≡ Ok (v, left self.new) | Err f ↦ expected_number (left self.old) ≡ Err f ] }
        ensures small { IfOk result (λ v. v ≤ 127) }
        ensures kept { self.new.text ≡ self.old.text }
    {
        self.expect_if(|token| match token {
            Token::Number { value, .. } => Some(value),
            _ => None,
        })
    }

    // The end of the text, where nothing else is allowed.
    pub fn expect_end(&mut self) -> Result<(), Fault>
        ensures told { elim result [ Ok u ↦ expected_end (left self.old) ≡ None | Err f ↦ expected_end (left self.old) ≡ Some f ] }
        ensures kept { self.new.text ≡ self.old.text }
    {
        self.expect_if(|token| match token {
            Token::End { .. } => Some(()),
            _ => None,
        })
    }
}
