ghost use Rattle.std.specs.Prelude.{◌≡◌};
ghost use Rattle.std.specs.List.{list_any};
ghost use Rattle.js_arena.specs.Heap.{names, value_holds};

use crate::value::{HandleName, Value};
use wd_base::{Obj, Req};

/// The name is that of the object, or that of an event whose request it is.
fn names(name: &HandleName, req: Req, obj: Obj) -> bool
    ensures { result ≡ names req obj name.now }
{
    name.req == req.0 && (name.obj == obj.0 || name.event && obj.0 == 0)
}

/// The value is a handle of the object.
pub fn value_holds(value: &Value, names_of: &[HandleName], req: Req, obj: Obj) -> bool
    ensures { result ≡ value_holds names_of.now req obj value.now }
{
    match value {
        Value::Handle(no) => match names_of.get(no.0) {
            Some(name) => names(name, req, obj),
            None => false,
        },
        _ => false,
    }
}

/// One of the values is a handle of the object.
pub fn any_holds(values: &[Value], names_of: &[HandleName], req: Req, obj: Obj) -> bool
    ensures { result ≡ list_any (value_holds names_of.now req obj) values.now }
{
    values
        .iter()
        .any(|value| value_holds(value, names_of, req, obj))
}
