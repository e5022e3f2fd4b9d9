//! Conversions of integers to parameters of SQL statements.
ghost use Rattle.std.specs.Prelude.{◌≡◌, ◌<◌, ◌^◌, pos};
ghost use Rattle.sqlite.specs.declared.types.Value.TheVariants.{Int};

use sqlite::types::Value;

/// Converts an unsigned number to an SQL integer.
pub fn number(n: u64) -> Value
    requires { n < 2 ^ 63 }
    ensures { result ≡ Int (pos n) }
{
    Value::Int(n as i64)
}

/// Converts a signed number to an SQL integer.
pub fn signed(n: &i16) -> Value
    ensures { result ≡ Int n.now }
{
    Value::Int(i64::from(*n))
}
