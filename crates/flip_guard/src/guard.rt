//! A constraint by a stored closure.

ghost use Rattle.std.specs.Prelude.{◌≡◌, ◌<◌, ◌≤◌, ◌↔◌, ◌^◌, [], ⊤, nat_le, Bool, IsTrue, true};
ghost use Rattle.std.specs.Fn.{FnReturnsAt};
ghost use Rattle.audit_model.specs.Limits.{most_edges};
ghost use Rattle.audit_model.specs.declared.outcome.SumsView.{SumsView as Sums};

use crate::judge::Judge;
use audit_model::outcome::SumsView;
use audit_model::rules::Rules;

/// The maximum number of edges of a graph.
const MOST_EDGES: u32 = 400_000;

/// A closure that decides on the cut edges of a plan, together with the rules that it implements.
#[derive(Drop)]
pub struct Guard<F> {
    test: F,
    rules: Rules,
}

impl<F: Fn(&SumsView) -> bool + Drop> Guard<F> {
    /// Wraps a closure that returns true if the cut edges are at most the rules' maximum.
    ///
    /// The rules have no regions, require no group majority and freeze no unit.
    pub fn new(test: F, rules: Rules) -> Guard<F>
        requires callable { F.IsAlwaysCallable test }
        requires answers { (sums : Sums) (answer : Bool) → sums.cut < 2 ^ 32 → FnReturnsAt F.Fn test sums answer → answer ≡ nat_le sums.cut rules.max_cut }
        requires no_regions { rules.regions ≡ [] }
        requires no_group { rules.group_districts ≡ 0 }
        requires no_frozen { rules.frozen ≡ [] }
        ensures rules { result.rules ≡ rules }
        ensures test { result.test ≡ test }
    {
        Guard { test, rules }
    }

    /// Returns true if the cut edges are at most the rules' maximum.
    pub fn allows(&self, sums: &SumsView) -> bool
        requires callable { F.IsAlwaysCallable self.now.test }
        requires answers { (sums : Sums) (answer : Bool) → sums.cut < 2 ^ 32 → FnReturnsAt F.Fn self.now.test sums answer → answer ≡ nat_le sums.cut self.now.rules.max_cut }
        ensures { result ≡ nat_le sums.now.cut self.now.rules.max_cut }
    {
        // Reading the field shows the prover that the number fits in 32 bits.
        let _cut = sums.cut;
        (self.test)(sums)
    }

    /// Returns true if the maximum excludes no plan because no graph has more edges.
    #[inline]
    pub fn allows_all(&self) -> bool
        ensures { IsTrue result ↔ (most_edges ≤ self.now.rules.max_cut) }
    {
        MOST_EDGES <= self.rules.max_cut
    }
}

impl<F: Fn(&SumsView) -> bool + Drop> Judge for Guard<F> {
    ghost judging = { λ g. record {
      rules = g.rules;
      takes = λ units districts. true;
      keeps = F.IsAlwaysCallable g.test
          × ((sums : Sums) (answer : Bool) → sums.cut < 2 ^ 32 → FnReturnsAt F.Fn g.test sums answer → answer ≡ nat_le sums.cut g.rules.max_cut)
          × (g.rules.regions ≡ [])
          × (g.rules.group_districts ≡ 0)
          × (g.rules.frozen ≡ []);
      stands = λ plan. ⊤;
    } };

    #[inline]
    fn limits_nothing(&self) -> bool {
        self.allows_all()
    }

    fn permits(&self, _after: &[u32], sums: &SumsView, _unit: u32, _from: u32) -> bool {
        self.allows(sums)
    }

    fn moved(&mut self, _after: &[u32], _unit: u32, _from: u32) {}

    fn reset(&mut self, _plan: &[u32]) {}
}
