ghost use Rattle.std.specs.Prelude.{◌≡◌};
ghost use Rattle.std.specs.Ordering.{is_lt};
ghost use Rattle.mr_merge.specs.Rising.{rank, begins_lower};

use mr_base::Key;

/// Whether the first key is lesser. Most leads differ, and then the keys needn't be compared.
pub(crate) fn is_lesser<K: Key>(one: &K, other: &K) -> bool
    ensures { result ≡ is_lt (K.cmp one.now other.now) }
{
    let lead = one.lead();
    let other_lead = other.lead();
    if lead != other_lead {
        return lead < other_lead;
    }
    one.cmp(other).is_lt()
}

/// Whether the first list begins with a lesser key than the second. One that is empty is the least.
pub(crate) fn begins_lower<K: Key, A>(one: &[(K, A)], other: &[(K, A)]) -> bool
    ensures { result ≡ begins_lower (rank K.cmp) one.now other.now }
{
    let Some(other) = other.first() else {
        return false;
    };
    let Some(one) = one.first() else {
        return true;
    };
    is_lesser(&one.0, &other.0)
}
