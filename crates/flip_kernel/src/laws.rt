//! Laws of the chain of plans. Each is the contract of a function that only calls a law of
//! `audit_model`.

ghost use Rattle.std.specs.Prelude.{◌≡◌, ℕ, ◌+◌, ◌*◌, ◌^◌, ◌<◌, ◌≤◌, List};
ghost use Rattle.audit_model.specs.Job.{Job};
ghost use Rattle.audit_model.specs.Plan.{IsLegal, cut_edges};
ghost use Rattle.audit_model.specs.Step.{ways};
ghost use Rattle.audit_model.specs.Weight.{factors, largest_change, weight};

/// Shows that the chain without a weight is reversible. For any two legal plans, the same number of draws
/// leads from the first to the second as from the second to the first.
pub fn ways_are_symmetric()
    ensures { (job : Job) (from to : List ℕ) → job.setting.cut_weight ≡ 256 → IsLegal job from → IsLegal job to → ways job from to ≡ ways job to from }
{
    audit_model::laws::ways_are_symmetric();
}

/// Shows that the chain with a weight is reversible to it. For any two legal plans, the weight of one,
/// times the number of draws that lead from it to the other, is the same for both.
pub fn ways_follow_the_weight()
    ensures ratio { (job : Job) (from to : List ℕ) (d : ℕ) → job.setting.cut_weight ≤ 256 → IsLegal job from → IsLegal job to →
        cut_edges job.graph to ≡ cut_edges job.graph from + d →
        ways job from to * 64 ^ d ≡ ways job to from * factors job.setting.cut_weight (cut_edges job.graph from) d }
    ensures far { (job : Job) (from to : List ℕ) (d : ℕ) → job.setting.cut_weight < 256 → IsLegal job from → IsLegal job to →
        cut_edges job.graph to ≡ cut_edges job.graph from + d → largest_change (job.graph.units * job.districts) < d →
        (ways job from to ≡ 0) × (ways job to from ≡ 0) }
    ensures balance { (job : Job) (from to : List ℕ) → job.setting.cut_weight ≤ 256 → IsLegal job from → IsLegal job to →
        weight job from * ways job from to ≡ weight job to * ways job to from }
{
    audit_model::laws::ways_follow_the_weight();
}
