// What a value is asked.
ghost use Rattle.std.specs.Prelude.{◌≡◌};
ghost use Rattle.value.specs.Asked.{is_array, is_object, is_int, is_uint, is_double, element_count, field_type};

use super::{Number, Scalar, Value};
use columns::ColumnType;

impl Value {
    // Whether it is an array.
    pub fn is_array(self) -> bool
        ensures { result ≡ is_array self }
    {
        match self {
            Value::Container(v) => !v.kind.object,
            Value::Scalar(_, _) => false,
        }
    }

    // Whether it is an object.
    pub fn is_object(self) -> bool
        ensures { result ≡ is_object self }
    {
        match self {
            Value::Container(v) => v.kind.object,
            Value::Scalar(_, _) => false,
        }
    }

    // Whether it is a signed number.
    pub fn is_int(self) -> bool
        ensures { result ≡ is_int self }
    {
        matches!(self, Value::Scalar(_, Scalar::Number(Number::Int(_))))
    }

    // Whether it is an unsigned number.
    pub fn is_uint(self) -> bool
        ensures { result ≡ is_uint self }
    {
        matches!(self, Value::Scalar(_, Scalar::Number(Number::Uint(_))))
    }

    // Whether it is a double, one that is no number included.
    pub fn is_double(self) -> bool
        ensures { result ≡ is_double self }
    {
        matches!(
            self,
            Value::Scalar(_, Scalar::Number(Number::Double(_) | Number::Nan(_)))
        )
    }

    // The count of a container.
    pub fn element_count(self) -> Option<u32>
        ensures { result ≡ element_count self }
    {
        match self {
            Value::Container(v) => Some(v.count),
            Value::Scalar(_, _) => None,
        }
    }

    // The column type of an opaque value.
    pub fn field_type(self) -> Option<ColumnType>
        ensures { result ≡ field_type self }
    {
        match self {
            Value::Scalar(_, Scalar::Opaque(t, _)) => Some(t),
            _ => None,
        }
    }
}
