// Numbers as words. One that is too large for its field counts as the largest that the field
// holds, however many digits it has, so that the rules of the field decline it.

ghost use Rattle.std.specs.Prelude.{◌≡◌, ℕ, min, pos, neg_ℤ, Ok, Err, IfErr, MatchResult};
ghost use Rattle.words.specs.Digits.{number_of, number_within, price_of};
ghost use Rattle.words.specs.declared.mistake.Mistake.TheVariants.{NotANumber};

use crate::mistake::Mistake;

// What holds numbers from 0 to its greatest.
pub trait Field: Copy {
    ghost value: { Self → ℕ };

    ghost greatest: { ℕ };

    fn holding(number: u64) -> Self
        ensures { value result ≡ min number greatest };
}

impl Field for u8 {
    ghost value = { λ n. n };

    ghost greatest = { 255 };

    fn holding(number: u64) -> u8 {
        u8::try_from(number).unwrap_or(u8::MAX)
    }
}

impl Field for u16 {
    ghost value = { λ n. n };

    ghost greatest = { 65535 };

    fn holding(number: u64) -> u16 {
        u16::try_from(number).unwrap_or(u16::MAX)
    }
}

impl Field for u32 {
    ghost value = { λ n. n };

    ghost greatest = { 4294967295 };

    fn holding(number: u64) -> u32 {
        u32::try_from(number).unwrap_or(u32::MAX)
    }
}

// A word of decimal digits, for a field.
pub fn read_field<F: Field>(word: &str) -> Result<F, Mistake>
    ensures { MatchResult result (λ held. number_within F.greatest word.now ≡ Ok (F.value held)) (λ m. (m ≡ NotANumber) × (number_within F.greatest word.now ≡ Err m)) }
{
    Ok(F::holding(read_number(word)?))
}

// A word of decimal digits.
pub fn read_number(word: &str) -> Result<u64, Mistake>
    ensures number { result ≡ number_of word.now }
    ensures mistakes { IfErr result (λ m. m ≡ NotANumber) }
{
    read_digits(word.as_bytes())
}

fn read_digits(word: &[u8]) -> Result<u64, Mistake>
    ensures number { result ≡ number_of word.now }
    ensures mistakes { IfErr result (λ m. m ≡ NotANumber) }
{
    if word.is_empty() {
        return Err(Mistake::NotANumber);
    }
    let mut number: u64 = 0;
    for &digit in word {
        if !digit.is_ascii_digit() {
            return Err(Mistake::NotANumber);
        }
        number = number
            .saturating_mul(10)
            .saturating_add(u64::from(digit - b'0'));
    }
    Ok(number)
}

// Digits, after `-` where the price is below 0.
pub fn read_price(word: &str) -> Result<i32, Mistake>
    ensures price { result ≡ price_of word.now }
    ensures mistakes { IfErr result (λ m. m ≡ NotANumber) }
{
    match word.as_bytes() {
        [b'-', digits @ ..] => Ok(below_zero(read_digits(digits)?)),
        digits => Ok(above_zero(read_digits(digits)?)),
    }
}

fn above_zero(number: u64) -> i32
    ensures { result ≡ pos (min number 2147483647) }
{
    i32::try_from(number).unwrap_or(i32::MAX)
}

fn below_zero(number: u64) -> i32
    ensures { result ≡ neg_ℤ (pos (min number 2147483648)) }
{
    i32::try_from(number).map_or(i32::MIN, |magnitude| -magnitude)
}
