ghost use Rattle.std.specs.Prelude.{◌≡◌, ◌+◌, ◌*◌, ◌^◌, ℕ, List, [], ◌∷◌, Some, None, Ok, Err, codes, true, false, pos, negsuc};
ghost use Rattle.std.specs.declared.cmp.Ordering.TheVariants.{Less, Equal, Greater};
ghost use Rattle.base_value.specs.Conversion.{convert, convertible};
ghost use Rattle.base_value.specs.Printing.{print_day, print_moment, print_number};
ghost use Rattle.base_value.specs.Reading.{read_value};
ghost use Rattle.base_value.specs.Texts.{text_cmp};
ghost use Rattle.base_value.specs.Values.{cmp};
ghost use Rattle.base_value.specs.declared.fail.ValueFail.TheVariants.{OutOfRange, WrongType, NotListed, TooLong};
ghost use Rattle.base_value.specs.declared.value.FieldType.TheVariants as type;
ghost use Rattle.base_value.specs.declared.value.Value.TheVariants as value;

/// Numbers, days and moments, read and printed by hand.
pub fn value_rows()
    ensures exact { read_value (type.Number 18 8) (codes "1234567890.12345678") ≡ Ok (value.Num (pos 123456789012345678)) }
    ensures printed { print_number (pos 123456789012345678) ≡ codes "1234567890.12345678" }
    ensures beyond { read_value (type.Number 18 8) (codes "12345678901.12345678") ≡ Err OutOfRange }
    ensures short { print_number (pos 150000000) ≡ codes "1.5" }
    ensures short_again { read_value (type.Number 3 2) (codes "1.50") ≡ Ok (value.Num (pos 150000000)) }
    ensures minus { read_value (type.Number 6 2) (codes "-0.50") ≡ Ok (value.Num (negsuc 49999999)) }
    ensures fine { read_value (type.Number 18 8) (codes "0.000000001") ≡ Err OutOfRange }
    ensures half { read_value (type.Number 6 0) (codes "1.5") ≡ Err OutOfRange }
    ensures word { read_value (type.Number 6 0) (codes "12x") ≡ Err WrongType }
    ensures point { read_value (type.Number 6 0) (codes "12.") ≡ Err WrongType }
    ensures empty { read_value type.Checkbox [] ≡ Ok (value.Bool false) }
    ensures truth { read_value type.Checkbox (codes "TRUE") ≡ Ok (value.Bool true) }
    ensures day { read_value type.Day (codes "2011-04-26") ≡ Ok (value.Day (pos 15090)) }
    ensures day_back { print_day (pos 15090) ≡ codes "2011-04-26" }
    ensures first_day { print_day (negsuc 719161) ≡ codes "0001-01-01" }
    ensures last_day { print_day (pos 2932896) ≡ codes "9999-12-31" }
    ensures leap { print_day (pos 11016) ≡ codes "2000-02-29" }
    ensures no_leap { read_value type.Day (codes "1900-02-29") ≡ Err WrongType }
    ensures moment { read_value type.Moment (codes "2011-04-26T13:30:00+01:30") ≡ Ok (value.Moment (pos 1303819200)) }
    ensures moment_back { print_moment (pos 1303819200) ≡ codes "2011-04-26T12:00:00.000+0000" }
    ensures before_epoch { print_moment (negsuc 0) ≡ codes "1969-12-31T23:59:59.000+0000" }
    ensures most_ahead { read_value type.Moment (codes "2000-03-01T23:59:00+23:59") ≡ Ok (value.Moment (pos 951868800)) }
    ensures most_behind { read_value type.Moment (codes "2000-02-29T00:01:00.5-2359") ≡ Ok (value.Moment (pos 951868800)) }
    ensures leap_second { read_value type.Moment (codes "2016-12-31T23:59:60Z") ≡ Err WrongType }
    ensures year_zero { read_value type.Moment (codes "0000-12-31T23:30:00-01:00") ≡ Ok (value.Moment (negsuc 62135594999)) }
    ensures year_zero_out { read_value type.Moment (codes "0000-06-01T00:00:00Z") ≡ Err OutOfRange }
    ensures to_number { convert (type.Number 6 0) (value.Text (codes "77")) ≡ Some (value.Num (pos 7700000000)) }
    ensures stuck { convert (type.Number 6 0) (value.Text (codes "12x")) ≡ None }
    ensures to_day { convert type.Day (value.Moment (negsuc 0)) ≡ Some (value.Day (negsuc 0)) }
    ensures first_read { read_value type.Day (codes "0001-01-01") ≡ Ok (value.Day (negsuc 719161)) }
    ensures last_read { read_value type.Day (codes "9999-12-31") ≡ Ok (value.Day (pos 2932896)) }
    ensures false_first { cmp (value.Bool false) (value.Bool true) ≡ Less }
    ensures true_last { cmp (value.Bool true) (value.Bool false) ≡ Greater }
    ensures folded { text_cmp (codes "K1") (codes "k1") ≡ Equal }
    ensures folded_street { text_cmp (83 ∷ 116 ∷ 114 ∷ 97 ∷ 0xDF ∷ 101 ∷ []) (codes "STRASSE") ≡ Equal }
{}
