ghost use Rattle.std.specs.Prelude.{◌≡◌, ℤ, pos};
ghost use Rattle.std.specs.Int.{cast_signed, cast_unsigned, w64};

/// What a cell of at most one word keeps of a number, and the number that it answers.
pub trait Scalar: Copy + Drop {
    // What is kept of a number.
    ghost scalar_of: { ℤ → Self };

    // The number that it answers.
    ghost number_of: { Self → ℤ };

    /// What is kept of a number.
    fn of(value: i64) -> Self
        ensures { result ≡ scalar_of value };

    /// The number that it answers.
    fn number(self) -> i64
        ensures { result ≡ number_of self };
}

/// The number itself.
impl Scalar for i64 {
    ghost scalar_of = { λ v. v };

    ghost number_of = { λ s. s };

    fn of(value: i64) -> i64 {
        value
    }

    fn number(self) -> i64 {
        self
    }
}

/// The bits in two's complement.
impl Scalar for u64 {
    ghost scalar_of = { cast_unsigned w64 };

    ghost number_of = { cast_signed w64 };

    fn of(value: i64) -> u64 {
        value.cast_unsigned()
    }

    fn number(self) -> i64 {
        self.cast_signed()
    }
}

/// That there is a number. It answers 1.
impl Scalar for () {
    ghost scalar_of = { λ _. tt };

    ghost number_of = { λ _. pos 1 };

    fn of(_value: i64) {}

    fn number(self) -> i64 {
        1
    }
}
