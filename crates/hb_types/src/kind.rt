ghost use Rattle.std.specs.Prelude.{◌≡◌, ◌<◌, ◌++◌, List, length, IfOk, OnOk};
ghost use Rattle.hb_types.specs.Kinds as kinds;
ghost use Rattle.hb_types.specs.KindTables.{kind_at, kinds_in};

use crate::kind_table::{KindForm, Kinds, moved};
use hb_base::Memory;
use std::alloc::Global;
use std::marker::Model;

/// What a type constructor takes: a form, and the table in which the parts of an arrow stand. Contracts see it by its
/// cases, and never by its places.
#[derive(Debug, Drop)]
pub struct Kind {
    pub form: KindForm,
    pub parts: Option<Kinds>,
}

impl Model for Kind {
    ghost use Rattle.std.specs.Prelude.{length};
    ghost use Rattle.hb_types.specs.Kinds.{Kind as Tree};
    ghost use Rattle.hb_types.specs.KindCodes.{coded_kind};

    ghost Value = { Tree };

    ghost coded = { coded_kind };

    ghost use Rattle.hb_types.specs.KindTables.{kind_built, kinds_in, HasKindsBelow};

    ghost view = { λ k. kind_built (kinds_in k.parts) k.form };

    ghost invariant = { λ k. HasKindsBelow (length (kinds_in k.parts)) k.form };
}

/// Puts the kinds of a table at the end of another one, where there is one, and answers how many these are.
fn append_parts(table: &mut Kinds, parts: &Option<Kinds>) -> Result<usize, Memory>
    ensures count { IfOk result (λ count. count ≡ length (kinds_in parts.now)) }
    ensures ok { OnOk result (table.new ≡ table.old ++ kinds_in parts.now) }
{
    match parts {
        None => Ok(0),
        Some(of) => {
            table.append(of)?;
            Ok(of.len())
        }
    }
}

/// Puts a kind with its parts at the end of a table, and answers its place.
fn take_in(table: &mut Kinds, kind: &Kind) -> Result<usize, Memory>
    ensures more { OnOk result ((more : List kinds.Kind) × (table.new ≡ table.old ++ more)) }
    ensures placed { IfOk result (λ place. (place < length table.new) × (kind_at table.new place ≡ kind.now)) }
{
    let count = append_parts(table, &kind.parts)?;
    let form = moved(kind.form, count, table.len());
    let place = table.push(form)?;
    Ok(place)
}

impl Kind {
    /// The kind of types.
    pub fn star() -> Kind
        ensures built { result ≡ kinds.Star }
    {
        Kind {
            form: KindForm::Star,
            parts: None,
        }
    }

    /// The kind of numbers.
    pub fn nat() -> Kind
        ensures built { result ≡ kinds.Nat }
    {
        Kind {
            form: KindForm::Nat,
            parts: None,
        }
    }

    /// The kind of areas.
    pub fn area() -> Kind
        ensures built { result ≡ kinds.Area }
    {
        Kind {
            form: KindForm::Area,
            parts: None,
        }
    }

    /// The kind of what takes `from` to `to`.
    pub fn arrow(alloc: Global, from: Kind, to: Kind) -> Result<Kind, Memory>
        ensures built { IfOk result (λ k. k ≡ kinds.Arrow from to) }
    {
        let mut table = Kinds::new(alloc);
        let a = take_in(&mut table, &from)?;
        let b = take_in(&mut table, &to)?;
        Ok(Kind {
            form: KindForm::Arrow(a, b),
            parts: Some(table),
        })
    }
}
