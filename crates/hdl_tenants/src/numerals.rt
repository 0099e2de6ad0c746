//! Decimal numbers.

ghost use Rattle.std.specs.Prelude.{◌<◌, ◌^◌};
ghost use Rattle.std.specs.Option.{SomeIff};
ghost use Rattle.std.specs.Str.Parse.{IsNumeral, digits_value};

/// The number that decimal digits spell: leading zeros are allowed, and no sign. None for another text, or a greater number.
pub fn decimal(digits: &str) -> Option<u64>
    ensures { SomeIff result (IsNumeral 10 digits.now × (digits_value 10 digits.now < 2 ^ 64)) (digits_value 10 digits.now) }
{
    if digits.starts_with('+') {
        return None;
    }
    digits.parse::<u64>().ok()
}

/// The same for a number of 16 bits.
pub fn decimal_u16(digits: &str) -> Option<u16>
    ensures { SomeIff result (IsNumeral 10 digits.now × (digits_value 10 digits.now < 2 ^ 16)) (digits_value 10 digits.now) }
{
    u16::try_from(decimal(digits)?).ok()
}

/// The same for a number of 32 bits.
pub fn decimal_u32(digits: &str) -> Option<u32>
    ensures { SomeIff result (IsNumeral 10 digits.now × (digits_value 10 digits.now < 2 ^ 32)) (digits_value 10 digits.now) }
{
    u32::try_from(decimal(digits)?).ok()
}
