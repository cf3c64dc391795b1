// A line while it is written, in room that every line has.
ghost use Rattle.std.specs.Prelude.{◌≡◌, [], ◌++◌, ◌+◌, ◌≤◌, length};
ghost use Rattle.listing.specs.Room.{most_line};
ghost use Rattle.model.specs.Replay.{decimal, name_of};

use model::Step;
use std::marker::Model;
use words::{put_decimal, put_name, put_text};

// Room for any line. The longest is that of sizes: 160 bytes if each number had twenty digits.
pub const MOST_LINE: usize = 192;

#[derive(Drop)]
pub(crate) struct Line {
    bytes: [u8; MOST_LINE],
    used: usize,
}

// Clauses see the bytes written so far.
impl Model for Line {
    ghost use Rattle.std.specs.Prelude.{ℕ, List, ◌≤◌, take};
    ghost use Rattle.listing.specs.Room.{most_line};

    ghost Value = { List ℕ };

    ghost view = { λ l. take l.used l.bytes };

    ghost invariant = { λ l. l.used ≤ most_line };
}

impl Line {
    pub(crate) fn new() -> Self
        ensures { result ≡ [] }
    {
        Line {
            bytes: [0; MOST_LINE],
            used: 0,
        }
    }

    pub(crate) fn written(&self) -> &[u8]
        ensures { result.now ≡ self.now }
    {
        &self.bytes[..self.used]
    }

    // Adds a text.
    #[tactic(auto, using(crate::proofs::Lined::growing))]
    pub(crate) fn add_text(&mut self, text: &[u8])
        requires { length self.old + length text.now ≤ most_line }
        ensures { self.new ≡ self.old ++ text.now }
    {
        self.used = put_text(&mut self.bytes, self.used, text);
    }

    // Adds a step's name, which takes 13 bytes at most.
    #[tactic(auto, using(crate::proofs::Lined::growing, words::proofs::Spelled::name_most))]
    pub(crate) fn add_name(&mut self, x: Step)
        requires { length self.old + 13 ≤ most_line }
        ensures after { self.new ≡ self.old ++ name_of x }
        ensures room { length self.new ≤ length self.old + 13 }
    {
        self.used = put_name(&mut self.bytes, self.used, x);
    }

    // Adds a number, which takes 20 bytes at most.
    #[tactic(auto, using(crate::proofs::Lined::growing, words::proofs::Decimal::decimal_most))]
    pub(crate) fn add_number(&mut self, n: u64)
        requires { length self.old + 20 ≤ most_line }
        ensures after { self.new ≡ self.old ++ decimal n }
        ensures room { length self.new ≤ length self.old + 20 }
    {
        self.used = put_decimal(&mut self.bytes, self.used, n);
    }

    // Adds a word and a number behind it.
    pub(crate) fn add_word(&mut self, word: &[u8], n: u64)
        requires { length self.old + (length word.now + 20) ≤ most_line }
        ensures after { self.new ≡ self.old ++ (word.now ++ decimal n) }
        ensures room { length self.new ≤ length self.old + (length word.now + 20) }
    {
        self.add_text(word);
        self.add_number(n);
    }
}
