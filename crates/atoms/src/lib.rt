// The six tests of a galley, atoms (which of the tests hold), and sets of atoms.
#![tactic(auto)]

ghost use Rattle.std.specs.Prelude.{◌≡◌, ℕ, ◌-◌, ◌<◌, Bool, true, false, not, ◌&&◌, ◌||◌, MatchOption, bit_and, bit_or, nat_lt};
ghost use Rattle.atoms.specs.Atoms.{atoms, weight_of, name_of, holds_at};
ghost use Rattle.atoms.specs.Sets.{member, counted, Least, every, set_of};

use std::fmt;

// How many atoms there are: each of the six tests holds or does not.
pub const ATOMS: u8 = 64;

// What a script can ask of a galley.
#[derive(Clone, Copy, Debug, PartialEq, Eq)]
pub enum Test {
    Widow,
    Orphan,
    Head,
    Figure,
    Note,
    Last,
}

impl Test {
    // The tests, by their weights.
    pub const ALL: [Test; 6] = [
        Test::Widow,
        Test::Orphan,
        Test::Head,
        Test::Figure,
        Test::Note,
        Test::Last,
    ];

    // The word that a script writes for the test.
    pub fn name(self) -> &'static str
        ensures { result.now ≡ name_of self }
    {
        match self {
            Test::Widow => "widow",
            Test::Orphan => "orphan",
            Test::Head => "head",
            Test::Figure => "figure",
            Test::Note => "note",
            Test::Last => "last",
        }
    }

    // What the test adds to an atom at which it holds.
    pub fn weight(self) -> u8
        ensures { result ≡ weight_of self }
    {
        match self {
            Test::Widow => 1,
            Test::Orphan => 2,
            Test::Head => 4,
            Test::Figure => 8,
            Test::Note => 16,
            Test::Last => 32,
        }
    }

    // The atoms at which the test holds.
    #[tactic(auto, using(crate::proofs::Table::member_set_is))]
    pub fn set(self) -> AtomSet
        ensures is { result.bits ≡ set_of self }
        ensures members { (k : ℕ) → member result.bits k ≡ (nat_lt k atoms && holds_at self k) }
    {
        let set = match self {
            Test::Widow => 0xaaaa_aaaa_aaaa_aaaa,
            Test::Orphan => 0xcccc_cccc_cccc_cccc,
            Test::Head => 0xf0f0_f0f0_f0f0_f0f0,
            Test::Figure => 0xff00_ff00_ff00_ff00,
            Test::Note => 0xffff_0000_ffff_0000,
            Test::Last => 0xffff_ffff_0000_0000,
        };
        AtomSet { bits: set }
    }
}

impl fmt::Display for Test {
    fn fmt<W: fmt::Write>(&self, f: &mut fmt::Formatter<W>) -> fmt::Result {
        f.write_str(self.name())
    }
}

// A set of atoms: the bit of weight 2^a stands for the atom a.
#[derive(Clone, Copy, Debug, PartialEq, Eq)]
pub struct AtomSet {
    bits: u64,
}

impl AtomSet {
    // The set of no atom.
    pub fn empty() -> AtomSet
        ensures is { result.bits ≡ 0 }
        ensures members { (k : ℕ) → member result.bits k ≡ false }
    {
        AtomSet { bits: 0 }
    }

    // The set of every atom.
    pub fn all() -> AtomSet
        ensures is { result.bits ≡ every }
        ensures members { (k : ℕ) → member result.bits k ≡ nat_lt k atoms }
    {
        AtomSet { bits: u64::MAX }
    }

    // Whether the atom is a member; a number that is no atom never is.
    pub fn contains(self, atom: u8) -> bool
        ensures is { result ≡ member self.bits atom }
        ensures atoms { result ≡ true → atom < atoms }
    {
        atom < ATOMS && (self.bits >> atom) & 1 == 1
    }

    // The least member, if there is one.
    pub fn least(self) -> Option<u8>
        ensures { MatchOption result ((k : ℕ) → member self.bits k ≡ false) (λ a. Least self.bits a) }
    {
        if self.bits == 0 {
            None
        } else {
            // A narrowing cast: that the number is below 64 is proved, and `try_from` would ask for an answer that never comes.
            Some(self.bits.trailing_zeros() as u8)
        }
    }

    // How many members there are.
    pub fn size(self) -> u32
        ensures { result ≡ counted self.bits atoms }
    {
        self.bits.count_ones()
    }

    // The members of either.
    pub fn union(self, other: AtomSet) -> AtomSet
        ensures is { result.bits ≡ bit_or self.bits other.bits }
        ensures members { (k : ℕ) → member result.bits k ≡ (member self.bits k || member other.bits k) }
    {
        AtomSet {
            bits: self.bits | other.bits,
        }
    }

    // The members of both.
    pub fn intersection(self, other: AtomSet) -> AtomSet
        ensures is { result.bits ≡ bit_and self.bits other.bits }
        ensures members { (k : ℕ) → member result.bits k ≡ (member self.bits k && member other.bits k) }
    {
        AtomSet {
            bits: self.bits & other.bits,
        }
    }

    // The atoms that are no members.
    pub fn complement(self) -> AtomSet
        ensures is { result.bits ≡ every - self.bits }
        ensures members { (k : ℕ) → member result.bits k ≡ (nat_lt k atoms && not (member self.bits k)) }
    {
        AtomSet { bits: !self.bits }
    }
}
