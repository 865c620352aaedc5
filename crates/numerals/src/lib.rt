// A number that a text spells: the public function answers for any text.
#![tactic(auto)]

ghost use Rattle.std.specs.Prelude.{◌≡◌, true, ◌<◌, SomeIff};
ghost use Rattle.numerals.specs.Numerals.{radix_of, spelled, value_from, in_base, number_of};

#[derive(Clone, Copy, PartialEq, Eq, Debug)]
pub enum NumberError {
    // A number of 2^32 or more.
    TooLarge,
    NotNumber,
}

// The base that a text's digits are in.
#[derive(Clone, Copy, PartialEq, Eq, Debug)]
enum Base {
    Decimal,
    Hexadecimal,
}

impl Base {
    fn radix(self) -> u32
        ensures { result ≡ radix_of self }
    {
        match self {
            Base::Decimal => 10,
            Base::Hexadecimal => 16,
        }
    }
}

// Each byte is a digit in the base, and there is one.
#[tactic(auto, using(crate::proofs::Digits::spelled_none))]
fn is_spelled(text: &[u8], base: Base) -> bool
    ensures { result ≡ spelled (radix_of base) text.now }
{
    let radix = base.radix();
    !text.is_empty() && text.iter().all(|c| char::from(*c).is_digit(radix))
}

// The number that the text's digits spell in the base, where it is below 2^32.
fn value(text: &[u8], base: Base) -> Option<u32>
    requires { spelled (radix_of base) text.now ≡ true }
    ensures { SomeIff result (value_from (radix_of base) 0 text.now < 4294967296) (value_from (radix_of base) 0 text.now) }
{
    let radix = base.radix();
    let mut v: u32 = 0;
    for c in text {
        let digit = char::from(*c).to_digit(radix)?;
        v = v.checked_mul(radix)?.checked_add(digit)?;
    }
    Some(v)
}

#[tactic(auto, using(crate::proofs::Digits::in_base_value, crate::proofs::Digits::in_base_none))]
fn in_base(text: &[u8], base: Base) -> Result<u32, NumberError>
    ensures { result ≡ in_base (radix_of base) text.now }
{
    if !is_spelled(text, base) {
        return Err(NumberError::NotNumber);
    }
    value(text, base).ok_or(NumberError::TooLarge)
}

// The number that all of the text spells, in decimal, or in hexadecimal after 0x or 0X.
#[tactic(auto, using(std::proofs::lemmas::List::take_all), unfolding(crate::specs::Numerals::number_of, crate::specs::Numerals::marked, notation::specs::Choice::choices))]
pub fn read_number(text: &[u8]) -> Result<u32, NumberError>
    ensures { result ≡ number_of text.now }
{
    match text {
        [b'0', b'x' | b'X', digits @ ..] => in_base(digits, Base::Hexadecimal),
        _ => in_base(text, Base::Decimal),
    }
}
