//! Which ring an action touches, and whose notices on it.

ghost use Rattle.std.specs.Prelude.{◌≡◌, IsTrue, None, false, ℕ};
ghost use Rattle.std.specs.BTreeMap.{is_at};
ghost use Rattle.argo_base.specs.Match.{id_cmp};
ghost use Rattle.argo_base.specs.declared.ring_key.RingId.{RingId};
ghost use Rattle.argo_model.specs.Rules.Act.{act};
ghost use Rattle.argo_model.specs.Rules.Destroy.{create};
ghost use Rattle.argo_model.specs.Rules.State.{State};
ghost use Rattle.argo_model.specs.declared.action.Action.{Action};
ghost use Rattle.argo_model.specs.declared.action.Action.TheVariants.{Deliver, Query, Sweep};
ghost use Rattle.argo_model.specs.declared.action.Load.{Load};
ghost use Rattle.argo_model.specs.declared.scripts.Actor.TheVariants.{Vcpu};
ghost use Rattle.domains.specs.ById.{id_in, is_noted, met_id, next_key, notice_ended, ring_at, ring_ended};
ghost use Rattle.domains.specs.World.{registered, swept};
ghost use Rattle.live_domain.specs.declared.registration.Registration.{Registration};
ghost use Rattle.section_world.specs.Acts.{keeps_rings, registers};
ghost use Rattle.state_laws.specs.Valid.{IsValid};
ghost use Rattle.touch_laws.specs.Touches.{Notes, Same, Touches};

/// Every ring stands where it stood, and every notice does, but for the ring and the notices that the act is said to touch: a send
/// and a question touch the sender's notice on the ring that it meets; a sweep those that it ends on the ring that it comes to; and
/// a registration its ring, with the notices that it ends there.
pub fn acts_touch_little()
    ensures own { (s : State) (d g : ℕ) (a : Action) → IsTrue (keeps_rings a)
        → Same s (act (Vcpu d g) a s).state }
    ensures created { (s : State) (d : ℕ) → Same s (create s d).state }
    ensures sent { (s : State) (d g port to to_port kind : ℕ) (load : Load)
        → Notes s (act (Vcpu d g) (Deliver port to to_port kind load) s).state
        (met_id s to to_port d) d }
    ensures asked { (s : State) (d g to to_port need : ℕ)
        → Notes s (act (Vcpu d g) (Query to to_port need) s).state (met_id s to to_port d) d }
    ensures swept { (s : State) (d g serial : ℕ) → IsValid s
        → Touches s (act (Vcpu d g) (Sweep serial) s).state
        (id_in d (next_key s d serial)) (swept s d g serial) }
    ensures registered { (s : State) (d g : ℕ) (r : Registration) → IsValid s
        → Touches s (act (Vcpu d g) (registers r) s).state
        (id_in d r.key) (registered s d g r) }
{}

/// A ring that ends takes no other with it, and a notice that ends leaves every ring and every other notice; the state stays valid.
pub fn ends_take_one()
    ensures ring_valid { (s : State) (id : RingId) → IsValid s → IsValid (ring_ended s id) }
    ensures ring_gone { (s : State) (id : RingId) → IsValid s
        → ring_at (ring_ended s id) id ≡ None }
    ensures ring_others { (s : State) (id x : RingId) → is_at (id_cmp id) x ≡ false
        → ring_at (ring_ended s id) x ≡ ring_at s x }
    ensures notice_valid { (s : State) (id : RingId) (d : ℕ) → IsValid s
        → IsValid (notice_ended s id d) }
    ensures notice_gone { (s : State) (id : RingId) (d : ℕ) → IsValid s
        → is_noted (notice_ended s id d) id d ≡ false }
    ensures notice_others { (s : State) (id : RingId) (d : ℕ)
        → Notes s (notice_ended s id d) id d }
{}
