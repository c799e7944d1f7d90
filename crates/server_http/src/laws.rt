ghost use Rattle.std.specs.Prelude.{◌≡◌, ◌⊎◌, List, ℕ};
ghost use Rattle.server_http.specs.Item.{AreItems, BeginWith, IsItem, IsOpenBehind, IsOpenTarget, Item};
ghost use Rattle.server_http.specs.declared.message.HttpMessage.{HttpMessage};

/// The bytes of a connection have one first item, unless those at hand end inside a target that nothing completes.
pub fn one_item()
    ensures { (bytes : List ℕ) (a b : Item) (rest other : List ℕ) → IsItem bytes a rest → IsItem bytes b other → ((a ≡ b) × (rest ≡ other)) ⊎ IsOpenTarget bytes }
{}

/// A connection has one list of items, unless its bytes end so behind some whole messages, with which both lists begin.
pub fn one_list()
    ensures { (bytes : List ℕ) (xs ys : List Item) → AreItems bytes xs → AreItems bytes ys → (xs ≡ ys) ⊎ ((ms : List HttpMessage) × IsOpenBehind bytes ms × BeginWith ms xs × BeginWith ms ys) }
{}
