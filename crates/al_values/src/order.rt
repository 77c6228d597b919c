ghost use Rattle.std.specs.Prelude.{◌≡◌};
ghost use Rattle.al_values.specs.Order.{compared};

use crate::Value;
use std::cmp::Ordering;

/// How two values compare (manual, 9.2). None exactly where one is Null, or the two are of different sorts: integers go
/// by number, false before true, texts byte by byte, days by number.
pub fn compare(a: &Value, b: &Value) -> Option<Ordering>
    ensures { result ≡ compared a.now b.now }
{
    match (a, b) {
        (Value::Bool(a), Value::Bool(b)) => Some(a.cmp(b)),
        (Value::Int(a), Value::Int(b)) => Some(a.cmp(b)),
        (Value::Text(a), Value::Text(b)) => Some(a.as_str().cmp(b.as_str())),
        (Value::Day(a), Value::Day(b)) => Some(a.cmp(b)),
        _ => None,
    }
}
