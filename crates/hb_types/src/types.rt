ghost use Rattle.std.specs.Prelude.{◌≡◌, ◌<◌, [], ◌∷◌, length, IfOk};
ghost use Rattle.hb_types.specs.Types as types;
ghost use Rattle.hb_types.specs.Tables.{last_type, built, HasPartsBelow};

use crate::atom::Atom;
use crate::table::{Form, Types};
use hb_base::Memory;
use std::alloc::Global;
use std::marker::Model;

/// A type by itself, with its own table: the last type of the table. Contracts see it by its cases, and never by its
/// places.
#[derive(Debug, Drop)]
pub struct Ty {
    table: Types,
}

impl Model for Ty {
    ghost use Rattle.std.specs.Prelude.{◌<◌, length};
    ghost use Rattle.hb_types.specs.Types.{Ty as Tree};
    ghost use Rattle.hb_types.specs.TypeCodes.{coded_type};

    ghost Value = { Tree };

    ghost coded = { coded_type };

    ghost use Rattle.hb_types.specs.Tables.{last_type};

    ghost view = { λ t. last_type t.table };

    ghost invariant = { λ t. 0 < length t.table };
}

/// The table of one form without parts.
fn single(alloc: Global, form: Form) -> Result<Types, Memory>
    requires { HasPartsBelow 0 form }
    ensures { IfOk result (λ table. table ≡ built [] form ∷ []) }
{
    let mut table = Types::new(alloc);
    let _place = table.push(form)?;
    Ok(table)
}

impl Ty {
    /// The unknown of this number.
    pub fn unknown(alloc: Global, number: u64) -> Result<Ty, Memory>
        ensures built { IfOk result (λ t. t ≡ types.Unknown number) }
    {
        let table = single(alloc, Form::Unknown(number))?;
        Ok(Ty { table })
    }

    /// A type without parts.
    pub fn leaf(alloc: Global, atom: Atom) -> Result<Ty, Memory>
        ensures built { IfOk result (λ t. t ≡ types.Leaf atom) }
    {
        let table = single(alloc, Form::Leaf(atom))?;
        Ok(Ty { table })
    }

    /// A type applied to one more type. Its table is that of the first, then that of the second, then the whole.
    pub fn apply(function: Ty, argument: Ty) -> Result<Ty, Memory>
        ensures built { IfOk result (λ t. t ≡ types.Apply function argument) }
    {
        let mut table = function.table;
        let f = table.len() - 1;
        table.append(&argument.table)?;
        let x = table.len() - 1;
        table.push(Form::Apply(f, x))?;
        Ok(Ty { table })
    }

    /// The table of this type and its parts, of which it is the last.
    pub fn table(&self) -> &Types
        ensures some { 0 < length result.now }
        ensures last { self.now ≡ last_type result.now }
    {
        &self.table
    }
}
