ghost use Rattle.std.specs.Prelude.{◌≡◌, ◌<◌, ◌++◌, ◌∷◌, [], length, IfOk, OnOk, OnErr};
ghost use Rattle.hb_types.specs.Put.{ArePlaces};
ghost use Rattle.hb_types.specs.UseTables.{uses_of, use_built, last_use, HasContextBelow, AreUses};

use crate::table::Types;
use hb_base::{List, Memory};
use std::alloc::Global;
use std::marker::Model;

/// How a predicate holds, as a node of a table: the instance, the places of the types that it is taken at, and the
/// places of the uses by which its context holds.
#[derive(Debug, Drop)]
pub struct UseForm {
    pub instance: u32,
    pub types: List<usize>,
    pub context: List<usize>,
}

/// How a predicate holds: the last of a table of uses, with the table of their types. Uses and types that occur many
/// times stand there once. Contracts see the instance, the types, and how the context holds.
#[derive(Debug, Drop)]
pub struct InstanceUse {
    pub types: Types,
    pub uses: List<UseForm>,
}

impl Model for InstanceUse {
    ghost use Rattle.std.specs.Prelude.{◌<◌, length};
    ghost use Rattle.hb_types.specs.Uses.{InstanceUse as Tree};
    ghost use Rattle.hb_types.specs.UseCodes.{coded_use};

    ghost Value = { Tree };

    ghost coded = { coded_use };

    ghost use Rattle.hb_types.specs.UseTables.{uses_of, last_use, AreUses};

    ghost view = { λ u. last_use (uses_of u.types u.uses) };

    ghost invariant = { λ u. (0 < length u.uses) × AreUses u.types u.uses };
}

/// A table of uses without uses. Takes no memory.
pub fn no_uses(alloc: Global) -> List<UseForm>
    ensures { result ≡ [] }
{
    List::of(Vec::new(alloc))
}

/// Puts a use at the end of a table of uses, whose types stand in a table of types, and answers its place. After
/// `Memory` the table is as it was.
pub fn push_use(types: &Types, uses: &mut List<UseForm>, form: UseForm) -> Result<usize, Memory>
    requires uses { AreUses types.now uses.old }
    requires types { ArePlaces types.now form.types }
    requires context { HasContextBelow (length uses.old) form }
    ensures place { IfOk result (λ place. place ≡ length uses.old) }
    ensures ok { OnOk result (uses_of types.now uses.new ≡ uses_of types.now uses.old ++ use_built types.now (uses_of types.now uses.old) form ∷ []) }
    ensures uses { AreUses types.now uses.new }
    ensures grown { OnOk result (uses.new ≡ uses.old ++ form ∷ []) }
    ensures err { OnErr result (uses.new ≡ uses.old) }
{
    let place = uses.len();
    uses.push(form)?;
    Ok(place)
}

impl InstanceUse {
    /// The last of some uses, whose types stand in this table.
    pub fn of(types: Types, uses: List<UseForm>) -> InstanceUse
        requires some { 0 < length uses }
        requires uses { AreUses types uses }
        ensures built { result ≡ last_use (uses_of types uses) }
    {
        InstanceUse { types, uses }
    }
}
