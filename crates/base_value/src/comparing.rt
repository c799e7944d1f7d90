//! Ids, texts and bytes are compared as what contracts see of them, which are lists of numbers, and principals by their
//! kinds and then by their ids.
ghost use Rattle.std.specs.Prelude.{refl};
ghost use Rattle.std.specs.Cmp.{eq_by_cmp_equiv, partial_equiv_from_equiv, partial_order_from_agreeing_total};
ghost use Rattle.std.specs.Cmp.Lexicographic.{slice_cmp, nat_list_cmp_total, nat_list_eq_equiv, texts_ties};
ghost use Rattle.std.specs.Ordering.{as_partial_cmp, eq_by_cmp, nat_cmp};
ghost use Rattle.std.specs.Str.{bytes_eq};
ghost use Rattle.base_value.specs.Principals.{principal_cmp, principals_total};

use crate::bytes::Bytes;
use crate::id::Id;
use crate::sharing::Principal;
use crate::text::Text;
use std::cmp::Ordering;

impl PartialEq for Id {
    ghost eq = { bytes_eq };

    ghost laws = { partial_equiv_from_equiv nat_list_eq_equiv };

    fn eq(&self, other: &Id) -> bool {
        self.as_bytes() == other.as_bytes()
    }
}

impl Eq for Id {
    ghost laws = { nat_list_eq_equiv };
}

impl PartialOrd for Id {
    ghost partial_cmp = { as_partial_cmp (slice_cmp nat_cmp) };

    ghost laws = { partial_order_from_agreeing_total (slice_cmp nat_cmp) nat_list_cmp_total (λ x y. refl) texts_ties };

    fn partial_cmp(&self, other: &Id) -> Option<Ordering> {
        Some(self.cmp(other))
    }
}

impl Ord for Id {
    ghost cmp = { slice_cmp nat_cmp };

    ghost total = { nat_list_cmp_total };

    ghost matches_partial_cmp = { λ x y. refl };

    ghost matches_eq = { texts_ties };

    fn cmp(&self, other: &Id) -> Ordering {
        self.as_bytes().cmp(other.as_bytes())
    }
}

impl PartialEq for Text {
    ghost eq = { bytes_eq };

    ghost laws = { partial_equiv_from_equiv nat_list_eq_equiv };

    fn eq(&self, other: &Text) -> bool {
        self.as_str() == other.as_str()
    }
}

impl Eq for Text {
    ghost laws = { nat_list_eq_equiv };
}

impl PartialEq for Bytes {
    ghost eq = { bytes_eq };

    ghost laws = { partial_equiv_from_equiv nat_list_eq_equiv };

    fn eq(&self, other: &Bytes) -> bool {
        self.as_slice() == other.as_slice()
    }
}

impl Eq for Bytes {
    ghost laws = { nat_list_eq_equiv };
}

impl PartialEq for Principal {
    ghost eq = { eq_by_cmp principal_cmp };

    ghost laws = { partial_equiv_from_equiv (eq_by_cmp_equiv principals_total) };

    fn eq(&self, other: &Principal) -> bool {
        self.cmp(other).is_eq()
    }
}

impl Eq for Principal {
    ghost laws = { eq_by_cmp_equiv principals_total };
}

impl PartialOrd for Principal {
    ghost partial_cmp = { as_partial_cmp principal_cmp };

    ghost laws = { partial_order_from_agreeing_total principal_cmp principals_total (λ x y. refl) (λ x y. refl) };

    fn partial_cmp(&self, other: &Principal) -> Option<Ordering> {
        Some(self.cmp(other))
    }
}

impl Ord for Principal {
    ghost cmp = { principal_cmp };

    ghost total = { principals_total };

    ghost matches_partial_cmp = { λ x y. refl };

    ghost matches_eq = { λ x y. refl };

    fn cmp(&self, other: &Principal) -> Ordering {
        let order = self.kind_number().cmp(&other.kind_number());
        if order.is_ne() {
            return order;
        }
        self.id().cmp(other.id())
    }
}
