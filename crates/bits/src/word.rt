// One word: its bits, counted from the lowest, which is bit 0. A number stands for its remainder by 64, so each function is total.
#![tactic(auto, using(crate::proofs::Digits::one_shl, crate::proofs::Digits::shr_and_one), unfolding(crate::specs::Word::set_bit, crate::specs::Word::clear_bit))]

ghost use Rattle.std.specs.Prelude.{◌≡◌};
ghost use Rattle.bits.specs.Word.{bit_index, bit_of, set_bit, clear_bit};

pub const WORD_BITS: u8 = 64;

pub fn test_bit(word: u64, number: u8) -> bool
    ensures { result ≡ bit_of word (bit_index number) }
{
    (word >> (number % WORD_BITS)) & 1 == 1
}

pub fn set_bit(word: u64, number: u8) -> u64
    ensures { result ≡ set_bit word (bit_index number) }
{
    word | (1 << (number % WORD_BITS))
}

pub fn clear_bit(word: u64, number: u8) -> u64
    ensures { result ≡ clear_bit word (bit_index number) }
{
    word & !(1 << (number % WORD_BITS))
}
