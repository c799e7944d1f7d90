ghost use Rattle.std.specs.Prelude.{◌≡◌, ◌∷◌, ◌++◌, [], None, Some, codes};
ghost use Rattle.base_csv.specs.Place.{column_of, line_of};
ghost use Rattle.base_csv.specs.Table.{first_refused, table_of, two_marks};

/// Sources worked by hand: none at all, a heading alone, a longer record, two byte order marks and one, lines that end
/// in CR LF, a line break in quotes, bytes that aren't UTF-8 in the heading and in record 3, and the places of records
/// after an empty line and a line break in quotes.
pub fn table_rows()
    ensures empty { first_refused [] ≡ Some 0 }
    ensures heading { (first_refused (codes "Name\n") ≡ None)
        × (table_of (codes "Name\n") ≡ (codes "Name" ∷ []) ∷ []) }
    ensures longer { first_refused (codes "Name\nAda\nBob,b\nCy,c\n") ≡ Some 2 }
    ensures two_marks { first_refused (two_marks ++ codes "Name\n") ≡ Some 0 }
    ensures one_mark { let source = 0xEF ∷ 0xBB ∷ 0xBF ∷ codes "Name\n" in
        (first_refused source ≡ None) × (table_of source ≡ (codes "Name" ∷ []) ∷ []) }
    ensures lines { let source = codes "Name\r\nAda\r\n" in
        (first_refused source ≡ None)
        × (table_of source ≡ (codes "Name" ∷ []) ∷ (codes "Ada" ∷ []) ∷ []) }
    ensures quoted { let source = codes "Name\n\"A\nb\"\n" in
        (first_refused source ≡ None)
        × (table_of source ≡ (codes "Name" ∷ []) ∷ (codes "A\nb" ∷ []) ∷ []) }
    ensures other_heading { first_refused (0xFF ∷ codes "\nAda\n") ≡ Some 0 }
    ensures other_row { first_refused (codes "Name\nAda\nBob\n" ++ 0xFF ∷ codes "\n") ≡ Some 3 }
    ensures places { let source = codes "Name\r\n\r\n\"A\nb\"\nBob,b\n" in
        (line_of 0 source ≡ 1) × (line_of 1 source ≡ 3) × (line_of 2 source ≡ 5) × (column_of 2 source ≡ 2) }
    ensures cells { column_of 1 (codes "Name,Id\nAda," ++ 0xFF ∷ codes "\n") ≡ 2 }
{}
