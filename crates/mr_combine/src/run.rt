ghost use Rattle.std.specs.Prelude.{◌≡◌, ◌<◌, List, length, slice_get, Some};

use mr_base::Emitted;

/// Values that are emitted for one key, one after the other. They need not stand in a list: each is found out when it is asked for.
pub trait Run {
    type Value: Emitted;

    /// The values, in their order.
    ghost values: { Self → List Self.Value };

    /// How many there are.
    fn len(&self) -> usize
        ensures { result ≡ length (values self.now) };

    /// The value at a place, from 0 on. Takes no memory.
    fn value(&self, at: usize) -> Self::Value
        requires { at < length (values self.now) }
        ensures value { slice_get (values self.now) at ≡ Some result }
        ensures allowed { Self.Value.allowed result };
}
