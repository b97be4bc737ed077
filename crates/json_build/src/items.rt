// The values of a list.
ghost use Rattle.std.specs.Prelude.{◌≡◌, ◌==◌, ◌∷◌, ◌++◌, [], OnOk, length};
ghost use Rattle.serde_json.specs.View.{view};
ghost use Rattle.json_build.specs.Held.{values};
ghost use Rattle.json_build.specs.Parts.{list_of};

use serde_json::{Value, push};
use std::alloc::{AllocError, Global};

/// The values of a list that is being made.
#[derive(Drop)]
pub struct Items {
    list: Vec<Value>,
}

impl Items {
    /// No values.
    pub fn new(alloc: Global) -> Items
        ensures { values result ≡ [] }
    {
        Items {
            list: Vec::new(alloc),
        }
    }

    /// One more value.
    pub fn push(&mut self, value: Value) -> Result<(), AllocError>
        ensures { OnOk result (values self.new ≡ values self.old ++ view value ∷ []) }
    {
        push(&mut self.list, value)
    }

    /// Whether there is none.
    pub fn is_empty(&self) -> bool
        ensures { result ≡ (length (values self.now) == 0) }
    {
        self.list.is_empty()
    }

    /// The list.
    pub fn list(self) -> Value
        ensures { view result ≡ list_of (values self) }
    {
        Value::Array(self.list)
    }
}
