//! Constraints on proposed plans.

ghost use Rattle.std.specs.Prelude.{◌≡◌, ◌≤◌, ◌↔◌, ℕ, List, IsTrue};
ghost use Rattle.audit_model.specs.Limits.{most_edges};
ghost use Rattle.audit_model.specs.Meets.{meets_rules};
ghost use Rattle.flip_guard.specs.Judging.{IsAfterMove, IsTaken, Judging};
ghost use Rattle.flip_guard.specs.Limiting.{LimitNothing};

use audit_model::outcome::SumsView;

/// A constraint: rules that decide whether a proposed plan may be taken.
///
/// An implementation may keep data about the current plan. `moved` and `reset` update the data.
pub trait Judge: Drop {
    /// The rules, and the plans that the constraint accepts as arguments.
    ghost judging: { Self → Judging };

    /// Returns true if the rules limit nothing, so that no proposal needs to be checked.
    fn limits_nothing(&self) -> bool
        requires kept { (judging self.now).keeps }
        ensures exact { IsTrue result ↔ LimitNothing (judging self.now).rules }
        ensures meets { IsTrue result → (cut : ℕ) (plan : List ℕ) → cut ≤ most_edges → IsTrue (meets_rules (judging self.now).rules cut plan) };

    /// Returns true if the plan after a move meets the rules.
    ///
    /// Before the move, `unit` was in the district `from`. The constraint must describe the plan
    /// before the move. Of `sums`, only the number of cut edges counts, and it must be that of the
    /// plan after the move.
    fn permits(&self, after: &[u32], sums: &SumsView, unit: u32, from: u32) -> bool
        requires kept { (judging self.now).keeps }
        requires after { IsAfterMove (judging self.now) after.now unit from }
        ensures { result ≡ meets_rules (judging self.now).rules sums.now.cut after.now };

    /// Updates the constraint after a move.
    fn moved(&mut self, after: &[u32], unit: u32, from: u32)
        requires kept { (judging self.old).keeps }
        requires after { IsAfterMove (judging self.old) after.now unit from }
        ensures kept { (judging self.new).keeps }
        ensures stands { (judging self.new).stands after.now }
        ensures rules { (judging self.new).rules ≡ (judging self.old).rules }
        ensures takes { (judging self.new).takes ≡ (judging self.old).takes };

    /// Recomputes the constraint for a plan, whatever plan it described before.
    fn reset(&mut self, plan: &[u32])
        requires kept { (judging self.old).keeps }
        requires plan { IsTaken (judging self.old) plan.now }
        ensures kept { (judging self.new).keeps }
        ensures stands { (judging self.new).stands plan.now }
        ensures rules { (judging self.new).rules ≡ (judging self.old).rules }
        ensures takes { (judging self.new).takes ≡ (judging self.old).takes };
}
