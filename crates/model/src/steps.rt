//! What holds of the step of the world, for the layers above.

ghost use Rattle.std.specs.Prelude.{◌≡◌, ◌≢◌, ◌≤◌, ℕ, suc, List, ◌∷◌, [], IsSome, Option, Some, None, codes, length};
ghost use Rattle.sha2.specs.Sha256.{sha256};
ghost use Rattle.model.specs.declared.caller.Caller.{Caller};
ghost use Rattle.model.specs.declared.refusal.Refusal.TheVariants as refusal;
ghost use Rattle.model.specs.declared.reply.Reply.{Reply};
ghost use Rattle.model.specs.Organisations.{with_org};
ghost use Rattle.model.specs.Jobs.{job_step, switched};
ghost use Rattle.model.specs.Callers.{IsUser};
ghost use Rattle.model.specs.Objects.{records_of};
ghost use Rattle.model.specs.Sound.{IsSound};
ghost use Rattle.model.specs.Step.{Answering, Message, caller_by, in_org, org_named, query_text, refusal_reply, step_by};
ghost use Rattle.model.specs.Steps.{IsBegun, copy_steps, steps};
ghost use Rattle.model.specs.Tenant.{Job, Tenant, User};
ghost use Rattle.model.specs.Sent.{Sent, own_replies, replies_by, replies_for};
ghost use Rattle.model.specs.World.{World, tenant_at, with_tenant};

/// The laws of a step of the world by whatever answers a caller's message: by all routes too. The call does nothing.
pub fn answering_laws()
    ensures called { (answers : Answering) (w : World) (m : Message) (now : ℕ) (c : Caller) → caller_by w m ≡ Some c
        → step_by answers w m now ≡ in_org w c.org (answers c m now) }
    ensures uncalled { (answers : Answering) (w : World) (m : Message) (now : ℕ) → caller_by w m ≡ None
        → step_by answers w m now ≡ (refusal_reply refusal.InvalidSession, w) }

    // A caller is a user of an organisation. The same organisation in its place is the same world.
    ensures user { (w : World) (m : Message) (c : Caller) → caller_by w m ≡ Some c → (t : Tenant) × (u : User) × IsUser w c t u }
    ensures same { (w : World) (org : ℕ) (t : Tenant) → tenant_at w org ≡ Some t → with_tenant w org t ≡ w }

    // A reply is made from the organisation alone that the message names.
    ensures own { (answers : Answering) (w v : World) (m : Message) (now org : ℕ) → org_named m ≡ Some org
        → tenant_at w org ≡ tenant_at v org
        → ((step_by answers w m now).0 ≡ (step_by answers v m now).0)
        × (tenant_at (step_by answers w m now).1 org ≡ tenant_at (step_by answers v m now).1 org) }

    // Isolation: the replies to one organisation's messages are those to these messages alone, from any world that has the
    // same organisation.
    ensures isolated { (answers : Answering) (org : ℕ) (qs : List Sent) (w v : World) → tenant_at w org ≡ tenant_at v org
        → replies_for org (replies_by answers w qs) ≡ own_replies answers org v qs }
    ensures other { (answers : Answering) (w : World) (m : Message) (now org : ℕ) → (org_named m ≡ Some org → ⊥)
        → tenant_at (step_by answers w m now).1 org ≡ tenant_at w org }
{}

/// One organisation in the place of another, and what a step of a change of a type leaves. The call does nothing.
pub fn tenant_laws()
    // It is found at its place, the others at theirs, and of two that are put there the second counts.
    ensures put { (w : World) (n : ℕ) (t u : Tenant) → tenant_at w n ≡ Some t → tenant_at (with_tenant w n u) n ≡ Some u }
    ensures others { (w : World) (n m : ℕ) (u : Tenant) → (m ≡ n → ⊥) → tenant_at (with_tenant w n u) m ≡ tenant_at w m }
    ensures twice { (w : World) (n : ℕ) (t u : Tenant) → with_tenant (with_tenant w n t) n u ≡ with_tenant w n u }

    // A step leaves the users.
    ensures users { (t : Tenant) → (job_step t).users ≡ t.users }
{}

/// The step at which the change of a field's type comes, where no request comes between: over n records that all take the new
/// type, the objects are as they were for the first n / 100 steps, rounded up, and the next step is the switch. The call does nothing.
pub fn change_laws()
    ensures copied { (t : Tenant) (j : Job) → IsSound t → t.job ≡ Some j → IsBegun t j
        → (n : ℕ) → n ≤ copy_steps (length (records_of t j.object)) → (steps n t).objects ≡ t.objects }
    ensures switched { (t : Tenant) (j : Job) → IsSound t → t.job ≡ Some j → IsBegun t j
        → (steps (suc (copy_steps (length (records_of t j.object)))) t).objects ≡ (switched j t).objects }
{}

/// The text of a query in a target, worked by hand. The call does nothing.
pub fn step_rows()
    ensures first_q { query_text (codes "a=1&q=SELECT+Id%2C+Name&q=2") ≡ codes "SELECT Id, Name" }
    ensures no_q { query_text (codes "Q=1") ≡ [] }
{}
