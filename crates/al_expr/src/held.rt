ghost use Rattle.std.specs.Prelude.{◌≡◌, IfOk};

use al_values::{Copied, NoMemory, Value};
use std::alloc::Global;
use std::marker::Model;

#[derive(Drop)]
enum Owner<'a> {
    Lent(&'a Value),
    Own(Value),
}

/// A value that is lent by the row or by the expression, or stands alone. Contracts see the value.
#[derive(Drop)]
pub(crate) struct Held<'a> {
    owner: Owner<'a>,
}

impl<'a> Model for Held<'a> {
    ghost use Rattle.al_values.specs.declared.scalar.Value as scalar;
    ghost use Rattle.al_expr.specs.Owned.{owned};

    ghost Value = { scalar.Value };

    ghost view = { λ it. owned it.owner };
}

impl<'a> Held<'a> {
    pub(crate) fn lent(value: &'a Value) -> Held<'a>
        ensures { result ≡ value.now }
    {
        Held {
            owner: Owner::Lent(value),
        }
    }

    pub(crate) fn own(value: Value) -> Held<'a>
        ensures { result ≡ value }
    {
        Held {
            owner: Owner::Own(value),
        }
    }

    pub(crate) fn get(&self) -> &Value
        ensures { result.now ≡ self.now }
    {
        match &self.owner {
            Owner::Lent(value) => value,
            Owner::Own(value) => value,
        }
    }

    pub(crate) fn into_value(self, alloc: Global) -> Result<Value, NoMemory>
        ensures { IfOk result (λ value. value ≡ self.entry) }
    {
        match self.owner {
            Owner::Lent(value) => Ok(value.copied(alloc)?),
            Owner::Own(value) => Ok(value),
        }
    }
}
