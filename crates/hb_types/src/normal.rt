ghost use Rattle.std.specs.Prelude.{◌≡◌, ◌<◌, ◌⊎◌, length, IfOk, Some, None};
ghost use Rattle.hb_types.specs.Tables.{HasPartsBelow};
ghost use Rattle.hb_types.specs.Normal.{normal_form, AreFirst};
ghost use Rattle.indexmap.specs.IndexMap.{get, Updates};

use crate::table::{Form, Types};
use hb_base::{List, Memory};
use indexmap::IndexMap;
use std::alloc::Global;
use std::hash::Hash;

/// A form with other places of its parts.
fn normal_form(form: Form, first: &[usize]) -> Form
    requires { HasPartsBelow (length first.now) form }
    ensures { result ≡ normal_form first.now form }
{
    match form {
        Form::Apply(f, x) => Form::Apply(first[f], first[x]),
        Form::Unknown(_) | Form::Leaf(_) => form,
    }
}

/// The place that is kept for a key. Where there is none, the given one is kept for it.
fn kept<K: Eq + Hash + Copy>(
    known: &mut IndexMap<K, usize>,
    key: K,
    place: usize,
) -> Result<usize, Memory>
    ensures { IfOk result (λ one. ((get K.eq known.old key ≡ Some one) × (known.new ≡ known.old)) ⊎ ((get K.eq known.old key ≡ None) × (one ≡ place) × Updates K.eq known.old known.new key (Some place))) }
{
    if let Some(one) = known.get(&key) {
        return Ok(*one);
    }
    known.insert(key, place)?;
    Ok(place)
}

impl Types {
    /// For each place the first place with the same type, in time that is near linear: two types are the same where
    /// these are.
    pub fn normal(&self, alloc: Global) -> Result<List<usize>, Memory>
        ensures { IfOk result (AreFirst self.now) }
    {
        let mut known = IndexMap::new(alloc);
        let mut all = Vec::new(alloc);
        for place in 0..self.len() {
            let form = normal_form(self.form(place), &all);
            let first = kept(&mut known, form, place)?;
            all.push(first)?;
        }
        Ok(List::of(all))
    }
}
