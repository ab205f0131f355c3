//! Values of SQL.

ghost use Rattle.std.specs.Prelude.{◌≡◌, pos, IfOk};
ghost use Rattle.sqlite.specs.Value.{owned};
ghost use Rattle.sqlite.specs.Values.{or_null};
ghost use Rattle.sqlite.specs.declared.types.Value.TheVariants.{Int};

use crate::fault::StoreFault;
use sqlite::types::ValueRef;

/// A number as SQL has it. Errors: it is over the greatest integer of SQL.
pub fn number(n: u64) -> Result<ValueRef<'static>, StoreFault>
    ensures { IfOk result (λ v. owned v ≡ Int (pos n)) }
{
    match i64::try_from(n) {
        Ok(n) => Ok(ValueRef::Int(n)),
        Err(_) => Err(StoreFault::Broken),
    }
}

/// A number or NULL.
pub fn optional_number(n: Option<u64>) -> Result<ValueRef<'static>, StoreFault>
    ensures { IfOk result (λ v. owned v ≡ or_null (λ m. Int (pos m)) n) }
{
    match n {
        Some(n) => number(n),
        None => Ok(ValueRef::Null),
    }
}
