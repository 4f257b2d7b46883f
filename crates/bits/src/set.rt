// A set of numbers, in words: number v is bit v % 64 of word v / 64. A number past the last word is in no set: to mark or clear it
// changes nothing. Numbers are bytes, so of a word past the fourth only `is_empty` tells.
#![tactic(auto, using(crate::proofs::Sets::words_are, crate::proofs::Sets::past_words), unfolding(crate::specs::Members::has, crate::specs::Members::marked, crate::specs::Members::cleared, crate::specs::Sets::has_number, crate::specs::Sets::no_numbers, crate::specs::Sets::mark_number, crate::specs::Sets::clear_number))]

ghost use Rattle.std.specs.Prelude.{◌≡◌};
ghost use Rattle.bits.specs.Sets.{has_number, no_numbers, mark_number, clear_number, is_empty, highest_number};

use crate::word::{WORD_BITS, clear_bit, set_bit, test_bit};

// Words that have a number which is a byte.
const BYTE_WORDS: usize = 4;

#[derive(Clone, Copy, Drop)]
pub struct Bits<const WORDS: usize> {
    pub words: [u64; WORDS],
}

pub type Bits64 = Bits<1>; // the numbers 0-63

pub type Bits256 = Bits<4>; // the numbers 0-255

impl<const WORDS: usize> Bits<WORDS> {
    pub fn none() -> Self
        ensures { result ≡ no_numbers }
    {
        Bits { words: [0; WORDS] }
    }

    pub fn mark(mut self, v: u8) -> Self
        ensures { result ≡ mark_number self.entry v }
    {
        let i = (v / WORD_BITS) as usize;
        if i < WORDS {
            self.words[i] = set_bit(self.words[i], v);
        }
        self
    }

    pub fn clear(mut self, v: u8) -> Self
        ensures { result ≡ clear_number self.entry v }
    {
        let i = (v / WORD_BITS) as usize;
        if i < WORDS {
            self.words[i] = clear_bit(self.words[i], v);
        }
        self
    }

    pub fn test(self, v: u8) -> bool
        ensures { result ≡ has_number self.entry v }
    {
        let word = self.words.get((v / WORD_BITS) as usize);
        test_bit(word.copied().unwrap_or(0), v)
    }

    pub fn is_empty(self) -> bool
        ensures { result ≡ is_empty self.entry }
    {
        self.words == [0; WORDS]
    }

    // A walk down from the top of the words; most sets are empty, and these are told first.
    pub fn highest(self) -> Option<u8>
        ensures { result ≡ highest_number self.entry }
    {
        if self.is_empty() {
            return None;
        }
        let numbers = WORDS.min(BYTE_WORDS) * WORD_BITS as usize;
        let top = numbers.saturating_sub(1) as u8;
        (0..=top).rev().find(
            |&v| -> bool
                ensures { result ≡ has_number self v }
            { self.test(v) },
        )
    }
}
