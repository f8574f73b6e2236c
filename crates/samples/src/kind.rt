// What a kind of sample is. A file of its own, so that `specs/` can name the trait's ghost members.
ghost use Rattle.std.specs.Prelude.{◌≡◌, Bool};
ghost use Rattle.samples.specs.Group.{Group};

// A kind of sample. The ghost members are its meaning; `laws` is what each impl proves.
pub trait Kind: Copy {
    ghost plus: { Self → Self → Self };

    ghost inverse: { Self → Self };

    ghost zero: { Self };

    ghost spark: { Self };

    ghost equal: { Self → Self → Bool };

    ghost laws: { Group plus inverse zero spark equal };

    fn zero_sample() -> Self
        ensures { result ≡ zero };

    fn spark_sample() -> Self
        ensures { result ≡ spark };

    fn add(self, other: Self) -> Self
        ensures { result ≡ plus self other };

    fn negate(self) -> Self
        ensures { result ≡ inverse self };

    // Yes exactly for the same sample. A kind need not have `==`.
    fn same(self, other: Self) -> bool
        ensures { result ≡ equal self other };
}
