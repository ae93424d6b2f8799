ghost use Rattle.std.specs.Prelude.{◌≢◌, negsuc};
ghost use Rattle.mr_defs.specs.Folded.{limit};

/// Values that are emitted, of which a type may leave some out.
pub trait Emitted: Drop {
    /// The values that may be emitted.
    ghost allowed: { Self → Type 0 };
}

/// Every number but -9223372036854775808, so that each has a magnitude of at most 9223372036854775807.
impl Emitted for i64 {
    ghost allowed = { λ v. v ≢ negsuc limit };
}
