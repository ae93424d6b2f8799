ghost use Rattle.std.specs.Prelude.{◌≡◌, refl, false};
ghost use Rattle.mr_base.specs.Noting.{noted_of};

use mr_base::{Faults, Key, Memory, Text};
use mr_container::{Local, Mapper, map_all};
use std::alloc::Global;

// A container that writes down each emission in the order in which it comes: a key and its value, or an offset behind a mark.
#[derive(Drop)]
struct Record<K> {
    text: Text,
    faults: Faults<K>,
}

impl<K: Key> Local for Record<K> {
    type Key = K;

    type Value = i64;

    ghost stands = { λ _ _. Unit {0} };

    ghost noted = { λ r. noted_of r.faults };

    ghost cell_count = { λ _. 0 };

    ghost same_origin = { λ _ _. Unit {0} };

    ghost same = { λ r s. noted_of s.faults ≡ noted_of r.faults };

    ghost spares = { λ _ _. false };

    ghost any_order = { λ _ _ _ _ _. tt };

    ghost same_refl = { λ _. refl };

    ghost same_keeps = { λ _ _ e. (λ _ _. tt, e, refl, λ _. refl) };

    ghost origin_refl = { λ _. tt };

    ghost origin_trans = { λ _ _ _ _ _. tt };

    fn emit(&mut self, key: K, value: i64) -> Result<(), Memory> {
        key.print(&mut self.text)?;
        self.text.push(b" ")?;
        self.text.push_number(value as i128)?;
        self.text.push(b"/")
    }

    fn too_large(&mut self, _key: K) {}

    fn malformed(&mut self, offset: u64) {
        let _ = self.text.push(b"!");
        let _ = self.text.push_number(offset as i128);
        let _ = self.text.push(b"/");
    }

    fn cells(&self) -> u64 {
        0
    }

    fn faults(&self) -> &Faults<K> {
        &self.faults
    }
}

/// What all tasks of a mapper emit, one task after the other.
pub fn written<M: Mapper<Value = i64>>(alloc: Global, mapper: &M) -> Result<Text, Memory> {
    let mut record = Record::<M::Key> {
        text: Text::new(alloc),
        faults: Faults::none(),
    };
    map_all(alloc, mapper, &mut record)?;
    Ok(record.text)
}
