//! Objects of one list.

ghost use Rattle.std.specs.Prelude.{◌≡◌, IfOk, map};
ghost use Rattle.serde_json.specs.Data.{array};
ghost use Rattle.serde_json.specs.View.{view, items_view};
ghost use Rattle.ga_dap_views.specs.Json.{json_object_of_member};

use serde_json::{Map, Value, put};
use std::alloc::{AllocError, Global};

/// An object with one member, a list.
pub(crate) fn object_with(alloc: Global, key: &str, list: Vec<Value>) -> Result<Value, AllocError>
    ensures { IfOk result (λ v. view v ≡ json_object_of_member key.now (array (items_view list.items))) }
{
    let mut map = Map::new(alloc);
    put(&mut map, alloc, key, Value::Array(list))?;
    Ok(Value::Object(map))
}
