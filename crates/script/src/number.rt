ghost use Rattle.std.specs.Prelude.{◌≡◌, ◌≤◌, IfSome, Some};
ghost use Rattle.script.specs.Number.{radix, digit_of, grown, numeral_after, numeral};

// The base that a number is written in.
#[derive(Clone, Copy)]
pub enum Base {
    Decimal,
    Hexadecimal,
}

impl Base {
    fn radix(self) -> u32
        ensures { result ≡ radix self }
    {
        match self {
            Base::Decimal => 10,
            Base::Hexadecimal => 16,
        }
    }

    fn digit(self, byte: u8) -> Option<u32>
        ensures { result ≡ digit_of self byte }
    {
        char::from(byte).to_digit(self.radix())
    }

    // The number with one digit more, while it keeps the limit.
    fn grow(self, limit: u32, number: u32, byte: u8) -> Option<u32>
        ensures { result ≡ grown self limit number (digit_of self byte) }
    {
        let digit = self.digit(byte)?;
        let longer = number.checked_mul(self.radix())?.checked_add(digit)?;
        (longer <= limit).then_some(longer)
    }

    // What the digits of a text make of 0.
    fn grow_by(self, limit: u32, digits: &str) -> Option<u32>
        ensures answer { result ≡ numeral_after self limit (Some 0) digits.now }
        ensures bound { IfSome result (λ n. n ≤ limit) }
    {
        digits
            .bytes()
            .try_fold(0, |number, byte| self.grow(limit, number, byte))
    }
}

// The number that a text writes.
pub fn read_number(digits: &str, base: Base, limit: u32) -> Option<u32>
    ensures answer { result ≡ numeral base limit digits.now }
    ensures bound { IfSome result (λ n. n ≤ limit) }
{
    if digits.is_empty() {
        return None;
    }
    base.grow_by(limit, digits)
}
