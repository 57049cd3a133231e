// Decimal fields, read by one rule at every width: a running value, ten times the old plus the digit. `decimal` computes it, and
// `running` (specs/Digits) is its definition.
#![tactic(auto)]

ghost use Rattle.std.specs.Prelude.{◌≡◌, ◌≤◌, get_or};
ghost use Rattle.text_digits.specs.Digits as ds;

use text_slices::byte_at;

// What one character says.
#[derive(Clone, Copy)]
pub enum Digit {
    Is(u32),
    NoDigit,
}

// What a field of characters says: a value, or the place of the first character that is no digit, counted from 0.
#[derive(Clone, Copy)]
pub enum Number {
    Value(u32),
    NoDigitAt(usize),
}

// The value of the decimal digit at an index.
#[tactic(auto, using(crate::proofs::Values::decimal_inside, crate::proofs::Values::decimal_below, crate::proofs::Values::decimal_above))]
fn digit_at(s: &[u8], i: usize) -> Digit
    ensures { result ≡ ds.decimal_value (get_or s.now i 0) }
{
    match byte_at(s, i) {
        b @ b'0'..=b'9' => Digit::Is((b - b'0') as u32),
        _ => Digit::NoDigit,
    }
}

// The number that the first k characters say, or where the first of them stands that is no digit (RULES K1). Nine digits fit in 32 bits.
fn decimal(s: &[u8], k: usize) -> Number
    requires { k ≤ 9 }
    ensures { result ≡ ds.decimal k s.now }
{
    let mut v = 0;
    for i in 0..k {
        let Digit::Is(d) = digit_at(s, i) else {
            return Number::NoDigitAt(i);
        };
        v = v * 10 + d;
    }
    Number::Value(v)
}

// The number that the first two characters say: 0 to 99, or a place; what follows them is not looked at. Each width is a function of its
// own, since a width as a parameter would have to be required to be at most nine, which these ask of nobody.
pub fn decimal_2(s: &[u8]) -> Number
    ensures { result ≡ ds.decimal 2 s.now }
{
    decimal(s, 2)
}

// The same of three characters: 0 to 999.
pub fn decimal_3(s: &[u8]) -> Number
    ensures { result ≡ ds.decimal 3 s.now }
{
    decimal(s, 3)
}

// The same of four characters: 0 to 9,999.
pub fn decimal_4(s: &[u8]) -> Number
    ensures { result ≡ ds.decimal 4 s.now }
{
    decimal(s, 4)
}

// The same of five characters: 0 to 99,999.
pub fn decimal_5(s: &[u8]) -> Number
    ensures { result ≡ ds.decimal 5 s.now }
{
    decimal(s, 5)
}
