//! The four types of value that a vector has.
ghost use Rattle.std.specs.Prelude.{◌≡◌, ℕ, ℤ, FitsSigned};
ghost use Rattle.bit_interleave.specs.Arithmetic.{integer_width};

/// A value of a column: one of the signed integers of 8, 16, 32 and 64 bits.
pub(crate) trait LaneValue: Copy {
    ghost BITS: { ℕ };

    ghost value: { Self → ℤ };

    /// The value as a number of 64 bits.
    fn to_i64(self) -> i64
        ensures kept { result ≡ value self }
        ensures fits { FitsSigned (integer_width BITS) result };

    /// The value that is this number, which is in the range of the type.
    fn from_i64(number: i64) -> Self
        requires { FitsSigned (integer_width BITS) number }
        ensures { value result ≡ number };
}

impl LaneValue for i8 {
    ghost BITS = { 8 };

    ghost value = { λ v. v };

    fn to_i64(self) -> i64 {
        i64::from(self)
    }

    fn from_i64(number: i64) -> Self {
        number as i8
    }
}

impl LaneValue for i16 {
    ghost BITS = { 16 };

    ghost value = { λ v. v };

    fn to_i64(self) -> i64 {
        i64::from(self)
    }

    fn from_i64(number: i64) -> Self {
        number as i16
    }
}

impl LaneValue for i32 {
    ghost BITS = { 32 };

    ghost value = { λ v. v };

    fn to_i64(self) -> i64 {
        i64::from(self)
    }

    fn from_i64(number: i64) -> Self {
        number as i32
    }
}

impl LaneValue for i64 {
    ghost BITS = { 64 };

    ghost value = { λ v. v };

    fn to_i64(self) -> i64 {
        self
    }

    fn from_i64(number: i64) -> Self {
        number
    }
}
