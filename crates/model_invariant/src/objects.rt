//! Objects: new ones, changes of them, new fields, and validation rules.

ghost use Rattle.std.specs.Prelude.{IsTrue, List, ℕ};
ghost use Rattle.model.specs.declared.metadata_bodies.NewObject.{NewObject};
ghost use Rattle.model.specs.declared.metadata_bodies.ObjectChange.{ObjectChange};
ghost use Rattle.model.specs.Metadata.{add_object, set_object};
ghost use Rattle.model.specs.declared.metadata_bodies.NewField.{NewField};
ghost use Rattle.model.specs.NewFields.{add_field};
ghost use Rattle.model.specs.Sound.{IsSound};
ghost use Rattle.model.specs.Tenant.{Tenant};
ghost use Rattle.model.specs.declared.metadata_bodies.NewValidationRule.{NewValidationRule};
ghost use Rattle.model.specs.ValidationRules.{add_validation_rule, remove_validation_rule};
ghost use Rattle.model_invariant.specs.Fit.{is_fit_field, is_fit_object, is_fit_object_change, is_fit_validation};

use crate::rule_text::text_laws;

/// What a new object, a change of one, a new field, a new validation rule or the end of one leaves is sound, if the body has the
/// form that every body has that is read: a new access is never the master's, and a message is a name. The call does nothing.
pub fn objects_sound()
    ensures set_object { (t : Tenant) (object : List ℕ) (c : ObjectChange) → IsTrue (is_fit_object_change c)
        → IsSound t → IsSound (set_object t object c).tenant }
    ensures add_object { (t : Tenant) (b : NewObject) → IsTrue (is_fit_object b) → IsSound t → IsSound (add_object t b).tenant }
    ensures add_field { (t : Tenant) (b : NewField) → IsTrue (is_fit_field b) → IsSound t → IsSound (add_field t b).tenant }
    ensures add_validation_rule { (t : Tenant) (b : NewValidationRule) → IsTrue (is_fit_validation b)
        → IsSound t → IsSound (add_validation_rule t b).tenant }
    ensures remove_validation_rule { (t : Tenant) (object name : List ℕ) → IsSound t → IsSound (remove_validation_rule t object name).tenant }
{
    text_laws();
}
