//! What holds of routers and of tables of routes, for the layers above.

ghost use Rattle.std.specs.Prelude.{◌≡◌, ◌++◌, [], Bool, List, None, Some, false, map, true, ℕ};
ghost use Rattle.std.specs.List.{list_all};
ghost use Rattle.std.specs.Str.{IsUtf8};
ghost use Rattle.matchit.specs.Params.{walk};
ghost use Rattle.matchit.specs.Router.{RouteOf};
ghost use Rattle.matchit.specs.Seek.{first};
ghost use Rattle.api.specs.router.Cuts.{AllUtf8, Cut, find_from};
ghost use Rattle.api.specs.router.Find.{all_clear, find, path_parts};
ghost use Rattle.api.specs.router.Pick.{AllPlain, ArePlain, IsPlain, are_plain, PatternOf, Piece, pick, router_rows, slashed};
ghost use Rattle.api.specs.router.Routes.{are_routes};
ghost use Rattle.api.specs.router.Ways.{MethodWay, any_by_path, any_by_pattern, decides, first_by_path, first_by_pattern, has_patterns};

/// The laws of routers. The call does nothing.
pub fn route_laws()
    // Whether a table has plain texts alone computes.
    ensures plain { (table : List (PatternOf ℕ)) → are_plain table ≡ true → ArePlain table }
    // The walk goes by segments, and tries a text before a parameter.
    ensures picks { (table : List (PatternOf ℕ)) (segments : List (List ℕ)) → ArePlain table → AllPlain segments
        → first (router_rows table) (slashed segments) ≡ pick table segments }
    // Every path is cut at its slashes.
    ensures cuts { (path : List ℕ) → IsUtf8 path → Cut path }
    // Where no two patterns meet a segment as a text and as a parameter, it finds the first one that the path has.
    ensures finds { (table : List (PatternOf ℕ)) (path front : List ℕ) (segments : List (List ℕ)) → ArePlain table
        → all_clear table ≡ true → path ≡ front ++ slashed segments → IsPlain front → AllPlain segments
        → first (router_rows table) path ≡ find_from table front segments }
    // What its parameters took are the parts of the path, each a text.
    ensures takes { (of : ℕ → List Piece) (table : List (PatternOf (RouteOf ℕ))) (path front : List ℕ) (segments : List (List ℕ))
        (route : RouteOf ℕ) → ArePlain table → all_clear table ≡ true → are_routes of table ≡ true
        → path ≡ front ++ slashed segments → IsPlain front → AllPlain segments → first (router_rows table) path ≡ Some route
        → (front ≡ []) × (find table segments ≡ Some route) × (path_parts (of route.value) segments
        ≡ Some (map (λ p. p.1) (walk route.pattern route.text path route.names 0 0))) }
    // What is found passes each test that all lines of the table pass.
    ensures passes { (test : ℕ → Bool) (table : List (PatternOf ℕ)) (segments : List (List ℕ)) (k : ℕ)
        → list_all (λ l. test l.1) table ≡ true → find table segments ≡ Some k → test k ≡ true }
    ensures texts { (pattern : List Piece) (segments parts : List (List ℕ)) → AllUtf8 segments
        → path_parts pattern segments ≡ Some parts → AllUtf8 parts }
{}

/// The laws of tables of methods and patterns. The call does nothing.
pub fn way_laws()
    // Such a table answers by the lines of a pattern that the path has.
    ensures answers { (method : List ℕ) (segments parts : List (List ℕ)) (p : List Piece) (lines : List (MethodWay ℕ))
        → decides p lines ≡ true → path_parts p segments ≡ Some parts
        → (first_by_path method segments lines ≡ first_by_pattern method parts p lines)
        × (any_by_path segments lines ≡ any_by_pattern p lines) }
    // Where no pattern is found, it has no request, and no such path.
    ensures lacks { (method : List ℕ) (segments : List (List ℕ)) (table : List (PatternOf ℕ)) (lines : List (MethodWay ℕ))
        → has_patterns table lines ≡ true → find table segments ≡ None
        → (first_by_path method segments lines ≡ None) × (any_by_path segments lines ≡ false) }
{}
