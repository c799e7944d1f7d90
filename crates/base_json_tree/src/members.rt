//! The members of an object.

ghost use Rattle.std.specs.Prelude.{◌≡◌, [], ◌∷◌, ◌++◌, OnOk};
ghost use Rattle.std.specs.Str.{chars};
ghost use Rattle.base_json_tree.specs.Words.{id_text, member, number, object, text, truth};

use crate::values::{id_json, number_json, text_json};
use base_json::{Json, Member};
use base_value::{Id, Items, Text};
use std::alloc::{AllocError, Global};
use std::marker::Model;

/// The members of an object as they are put together, seen as a list of them.
#[derive(Drop)]
pub struct Members {
    items: Items<Member>,
}

impl Model for Members {
    ghost use Rattle.std.specs.Prelude.{List};
    ghost use Rattle.std.specs.Coded.{codes};
    ghost use Rattle.base_json.specs.contracts.tree.Member as row;
    ghost use Rattle.base_json.specs.declared.tree.Member.{Member};

    ghost Value = { List Member };

    ghost coded = { Prim.hlevel (codes, row.the_row.coded) };

    ghost view = { λ m. m.items };
}

impl Members {
    /// None so far.
    pub fn new(alloc: Global) -> Members
        ensures { result ≡ [] }
    {
        Members {
            items: Items::new(alloc),
        }
    }

    /// One more member, of this name and value.
    ///
    /// # Errors
    ///
    /// When out of memory, as in each of these calls.
    pub fn put(&mut self, alloc: Global, name: &str, value: Json) -> Result<(), AllocError>
        ensures { OnOk result (self.new ≡ self.old ++ member (chars name.now) value ∷ []) }
    {
        let name = Text::from_str(alloc, name)?;
        self.items.push(Member { name, value })
    }

    /// One more that is a text.
    pub fn text(&mut self, alloc: Global, name: &str, characters: &str) -> Result<(), AllocError>
        ensures { OnOk result (self.new ≡ self.old ++ member (chars name.now) (text (chars characters.now)) ∷ []) }
    {
        let value = text_json(alloc, characters)?;
        self.put(alloc, name, value)
    }

    /// One more that is an id.
    pub fn id(&mut self, alloc: Global, name: &str, id: &Id) -> Result<(), AllocError>
        ensures { OnOk result (self.new ≡ self.old ++ member (chars name.now) (id_text id.now) ∷ []) }
    {
        let value = id_json(alloc, id)?;
        self.put(alloc, name, value)
    }

    /// One more that is a whole number.
    pub fn number(&mut self, alloc: Global, name: &str, n: u64) -> Result<(), AllocError>
        ensures { OnOk result (self.new ≡ self.old ++ member (chars name.now) (number n) ∷ []) }
    {
        self.put(alloc, name, number_json(n))
    }

    /// One more that is a truth value.
    pub fn truth(&mut self, alloc: Global, name: &str, value: bool) -> Result<(), AllocError>
        ensures { OnOk result (self.new ≡ self.old ++ member (chars name.now) (truth value) ∷ []) }
    {
        self.put(alloc, name, Json::Bool(value))
    }

    /// The object that has them.
    pub fn finish(self) -> Json
        ensures { result ≡ object self }
    {
        let Members { items } = self;
        Json::Object(items)
    }
}
