// The known words of scripts.
#![tactic(auto)]

ghost use Rattle.std.specs.Prelude.{◌≡◌};
ghost use Rattle.words.specs.Words.{test_of, verb_of, keyword_of, word_of};

use atoms::Test;
use labels::Verb;

// A known word.
#[derive(Clone, Copy, Debug, PartialEq, Eq)]
pub enum Word {
    Test(Test),
    Verb(Verb),
    If,
    Else,
    While,
    Skip,
    Stop,
    By,
    P,
}

// The test that the letters name, if there is one.
fn test_word(letters: &[u8]) -> Option<Test>
    ensures { result ≡ test_of letters.now }
{
    match letters {
        b"widow" => Some(Test::Widow),
        b"orphan" => Some(Test::Orphan),
        b"head" => Some(Test::Head),
        b"figure" => Some(Test::Figure),
        b"note" => Some(Test::Note),
        b"last" => Some(Test::Last),
        _ => None,
    }
}

// The verb that the letters name, if there is one.
fn verb_word(letters: &[u8]) -> Option<Verb>
    ensures { result ≡ verb_of letters.now }
{
    match letters {
        b"line" => Some(Verb::Line),
        b"page" => Some(Verb::Page),
        b"column" => Some(Verb::Column),
        b"float" => Some(Verb::Float),
        b"foot" => Some(Verb::Foot),
        b"feather" => Some(Verb::Feather),
        b"tight" => Some(Verb::Tight),
        b"loose" => Some(Verb::Loose),
        b"hyphen" => Some(Verb::Hyphen),
        b"rule" => Some(Verb::Rule),
        b"blank" => Some(Verb::Blank),
        b"run" => Some(Verb::Run),
        _ => None,
    }
}

// The word of the grammar itself, if it is one.
fn keyword(letters: &[u8]) -> Option<Word>
    ensures { result ≡ keyword_of letters.now }
{
    match letters {
        b"if" => Some(Word::If),
        b"else" => Some(Word::Else),
        b"while" => Some(Word::While),
        b"skip" => Some(Word::Skip),
        b"stop" => Some(Word::Stop),
        b"by" => Some(Word::By),
        b"p" => Some(Word::P),
        _ => None,
    }
}

// The known word that the letters spell, if there is one. The three are matches of their own, and no search in a table that is handed
// to one function: a match is the table, and each has another type. Letters are bytes, so they are no FromStr; `name` is the way back.
#[tactic(auto, unfolding(crate::specs::Words::word_of))]
pub fn known(letters: &[u8]) -> Option<Word>
    ensures { result ≡ word_of letters.now }
{
    test_word(letters)
        .map(Word::Test)
        .or_else(|| verb_word(letters).map(Word::Verb))
        .or_else(|| keyword(letters))
}
