//! What bodies are read as, and messages by their methods and targets, worked by hand.

ghost use Rattle.std.specs.Prelude.{◌≡◌, ◌∷◌, [], codes, false, true, None, Some};
ghost use Rattle.base_json.specs.declared.tree.Json.TheVariants as json;
ghost use Rattle.base_value.specs.declared.sharing.Level.TheVariants.{Read};
ghost use Rattle.model.specs.declared.people_bodies.PrincipalKind.TheVariants as kind;
ghost use Rattle.base_value.specs.declared.value.FieldType.TheVariants as type;
ghost use Rattle.model_requests.specs.Forms.{object_change_request, object_request, share_request, sharing_rule_request, validation_request};
ghost use Rattle.model.specs.Members.{assignments, body_in, principal_in};
ghost use Rattle.model.specs.declared.metadata_bodies.SpelledType.TheVariants.{Plain};
ghost use Rattle.model.specs.declared.record_bodies.Given.TheVariants as gives;
ghost use Rattle.model.specs.declared.sharing_bodies.SpelledSource.TheVariants.{Criteria};
ghost use Rattle.model_requests.specs.PeopleForms.{group_request, role_request, user_change_request, user_request};
ghost use Rattle.model_reads.specs.Parts.{value_part};
ghost use Rattle.model_requests.specs.Requests.{adds_group, adds_object, adds_role, adds_sharing_rule, adds_user, sets_object, sets_user, shares};
ghost use Rattle.model.specs.TypeForms.{type_of};
ghost use Rattle.model_requests.specs.WorkedForms.{apart_object, by_text, change_body, change_read, from_role, hierarchy_member, number_member, object_body, private_object, rule_body, share_body, share_read, text_member, type_body, user_body, validation_body};

/// Bodies with listed members. The call does nothing.
pub fn form_rows()
    ensures share { share_request (share_body (codes "Edit") []) ≡ Some (shares share_read) }
    ensures level { share_request (share_body (codes "Full") []) ≡ None }
    ensures twice { share_request (share_body (codes "Edit") (text_member (codes "to") (codes "user:x") ∷ [])) ≡ None }
    ensures unknown { share_request (share_body (codes "Edit") (text_member (codes "More") (codes "x") ∷ [])) ≡ None }
    ensures lacking { share_request (text_member (codes "to") (codes "user:x") ∷ text_member (codes "level") (codes "Edit") ∷ [])
        ≡ None }
    ensures object { object_request (object_body (codes "Private")) ≡ Some (adds_object private_object) }
    ensures no_master { object_request (object_body (codes "ControlledByParent")) ≡ None }
    ensures apart { object_request (hierarchy_member (json.Bool false) ∷ object_body (codes "Private"))
        ≡ Some (adds_object apart_object) }
    ensures no_truth { object_request (hierarchy_member json.Null ∷ object_body (codes "Private")) ≡ None }
    ensures switched { object_change_request (codes "A__c") (hierarchy_member (json.Bool true) ∷ [])
        ≡ Some (sets_object (codes "A__c") (record { access = None; hierarchy = Some true })) }
    ensures nothing_said { object_change_request (codes "A__c") [] ≡ None }
    ensures by_the_parent { object_change_request (codes "A__c")
        (text_member (codes "access") (codes "ControlledByParent") ∷ hierarchy_member (json.Bool true) ∷ []) ≡ None }
    ensures user { user_request (user_body (codes "abcdefghijklmnop"))
        ≡ Some (adds_user (record { name = codes "Ron"; secret = codes "abcdefghijklmnop"; role = None; admin = false })) }
    ensures short_secret { user_request (user_body (codes "abc")) ≡ None }
    ensures inactive { user_change_request (codes "x") change_body ≡ Some (sets_user (codes "x") change_read) }
    ensures no_change { user_change_request (codes "x") [] ≡ None }
    ensures new_secret { user_change_request (codes "x") (text_member (codes "secret") (codes "abc") ∷ []) ≡ None }
    ensures role { role_request (text_member (codes "name") (codes "R") ∷ text_member (codes "parent") (codes "x") ∷ [])
        ≡ Some (adds_role (codes "R") (Some (codes "x"))) }
    ensures group { group_request (text_member (codes "name") [] ∷ []) ≡ Some (adds_group []) }
    ensures no_message { validation_request (validation_body []) ≡ None }
    ensures formula { sharing_rule_request (rule_body (by_text ∷ []))
        ≡ Some (adds_sharing_rule (record {
          members = codes "object" ∷ codes "name" ∷ codes "to" ∷ codes "level" ∷ codes "formula" ∷ [];
          object = codes "A__c";
          name = codes "v";
          source = Criteria (codes "TRUE");
          to = record { kind = kind.Role; text = codes "r" };
          level = Read;
        })) }
    ensures two_sources { sharing_rule_request (rule_body (by_text ∷ from_role ∷ [])) ≡ None }
    ensures no_source { sharing_rule_request (rule_body []) ≡ None }
{}

/// Principals, types, values of fields, and the key in a path. The call does nothing.
pub fn spelling_rows()
    ensures no_colon { principal_in (codes "user") ≡ None }
    ensures other_kind { principal_in (codes "User:x") ≡ None }
    ensures no_id { principal_in (codes "group:") ≡ Some (record { kind = kind.Group; text = [] }) }
    ensures number { type_of (type_body (codes "Number") (number_member (codes "digits") 600000000 ∷ number_member (codes "decimals") 0 ∷ []))
        ≡ Some (Plain (type.Number 6 0)) }
    ensures half { type_of (type_body (codes "Text") (number_member (codes "length") 2050000000 ∷ [])) ≡ None }
    ensures too_long { type_of (type_body (codes "Text") (number_member (codes "length") 25600000000 ∷ [])) ≡ None }
    ensures ignored { assignments (text_member (codes "attributes") (codes "x") ∷ text_member (codes "Name") (codes "n") ∷ [])
        ≡ Some (record { field = codes "Name"; given = gives.Json (json.Text (codes "n")) } ∷ []) }
    ensures same_name { assignments (text_member (codes "name") (codes "x") ∷ text_member (codes "Name") (codes "n") ∷ [])
        ≡ None }
    ensures key { value_part (codes "A%2F1+2") ≡ Some (codes "A/1+2") }
    ensures no_key { value_part (codes "%FF") ≡ None }
    ensures no_utf8 { body_in (255 ∷ []) ≡ None }
{}
