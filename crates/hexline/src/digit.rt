// The sixteen digits: 0-9 and A-F.
ghost use Rattle.std.specs.Prelude.{◌≡◌, ◌<◌};
ghost use Rattle.hexline.specs.Digits.{digit_in, hex_of};

// A digit's value; none where the byte is no digit.
#[tactic(auto, using(std::proofs::lemmas::Bool::Decides::nat_tests), unfolding(crate::specs::Digits::digit_in, crate::specs::Digits::is_digit, crate::specs::Digits::digit_of))]
pub(crate) fn digit(b: u8) -> Option<u8>
    ensures { result ≡ digit_in b }
{
    match b {
        b'0'..=b'9' => Some(b - b'0'),
        b'A'..=b'F' => Some(b - b'A' + 10),
        _ => None,
    }
}

// A value's digit.
#[tactic(auto, using(std::proofs::lemmas::Bool::Decides::nat_tests), unfolding(crate::specs::Digits::hex_of))]
pub(crate) fn hex(value: u8) -> u8
    requires { value < 16 }
    ensures { result ≡ hex_of value }
{
    if value < 10 {
        value + b'0'
    } else {
        value - 10 + b'A'
    }
}
