//! Laws of the definitions. Each law is the contract of a function with an empty body.

ghost use Rattle.std.specs.Prelude.{◌||◌, ◌≡◌, None, true, false, cond, [], slice_index, length, take, IsFalse, ℕ, ◌+◌, ◌-◌, ◌*◌, ◌/◌, ◌%◌, ◌&&◌, ◌^◌, ◌<◌, ◌≤◌, nat_le, Bool, List, ◌++◌, ℤ, ◌↔◌, IsTrue};
ghost use Rattle.audit_model.specs.Apart.{AllApart};
ghost use Rattle.audit_model.specs.Graph.{Graph, IsIn, count_edges, has};
ghost use Rattle.audit_model.specs.Job.{Job, rules, total_population};
ghost use Rattle.audit_model.specs.JobOf.{has_no_votes, plan_fault};
ghost use Rattle.audit_model.specs.Least.{IsLeast};
ghost use Rattle.audit_model.specs.Limits.{IsWithinLimits, most_districts, most_edges, most_regions, most_splits};
ghost use Rattle.audit_model.specs.Local.{IsLocal, IsSimple, MayLeave};
ghost use Rattle.audit_model.specs.Machine.{Machine, IsRun, started_part, state_after};
ghost use Rattle.audit_model.specs.declared.outcome.Event.{Event};
ghost use Rattle.audit_model.specs.declared.rules.Rules.{Rules};
ghost use Rattle.audit_model.specs.Meets.{Meets, meets_rules};
ghost use Rattle.audit_model.specs.Path.{HasPath, IsConnected, is_connected, reached};
ghost use Rattle.audit_model.specs.District.{in_district};
ghost use Rattle.audit_model.specs.Plan.{cut_edges, IsBalanced, IsLegal, is_legal, least_population, greatest_population};
ghost use Rattle.audit_model.specs.declared.outcome.Outcome.{Outcome};
ghost use Rattle.audit_model.specs.Proposal.{proposal};
ghost use Rattle.audit_model.specs.Run.{total, has_id, is_in_part, pending_ids, part_ids, run_ids, full, fits, taken_up, IsConsistent, IsRight};
ghost use Rattle.audit_model.specs.Step.{CanReturn, changed, next, ways, mirrored};
ghost use Rattle.audit_model.specs.declared.setting.Tail.{Tail};
ghost use Rattle.audit_model.specs.Weight.{factors, largest_change, weight};
ghost use Rattle.audit_model.specs.Stopping.{count_in_tail, stop};
ghost use Rattle.audit_model.specs.Test.{bound, p_value};
ghost use Rattle.audit_model.specs.Trajectory.{Draws, without_histogram, outcome_with, sequence, visit, whole};

/// Shows that `is_connected` is true exactly if the set is nonempty and any two of its units have a path within the
/// set.
pub fn is_connected_decides()
    ensures { (g : Graph) (inside : ℕ → Bool) → IsTrue (is_connected g inside) ↔ IsConnected g inside }
{}

/// Shows that a search reaches a unit exactly if a path within the set leads to the unit.
pub fn reached_decides()
    ensures { (g : Graph) (inside : ℕ → Bool) (x v : ℕ) → IsIn g inside x → IsTrue (has (reached g inside x) v) ↔ HasPath g inside x v }
{}

/// Shows that `meets_rules` is true exactly if a plan with this number of cut edges meets the rules.
pub fn meets_rules_decides()
    ensures { (rules : Rules) (cut : ℕ) (plan : List ℕ) → IsTrue (meets_rules rules cut plan) ↔ Meets rules cut plan }
{}

/// Shows that `is_legal` is true exactly if the plan is legal.
pub fn is_legal_decides()
    ensures { (job : Job) (plan : List ℕ) → IsTrue (is_legal job plan) ↔ IsLegal job plan }
{}

/// Shows that a step from a legal plan leads to a legal plan.
pub fn next_stays_legal()
    ensures { (job : Job) (plan : List ℕ) (draw : ℕ) → IsLegal job plan → IsLegal job (next job plan draw) }
{}

/// Shows that the mirrored draw leads from the next plan back to the plan, and that mirroring the mirrored draw gives
/// the first draw. With a weight, this holds of steps that take no cut edges away. Divided by the number of pairs
/// (units times districts), both draws give the same integer quotient. The mirrored draw has at most 64 bits.
pub fn mirrored_leads_back()
    ensures back { (job : Job) (plan : List ℕ) (draw : ℕ) → IsLegal job plan → CanReturn job plan draw →
        next job (next job plan draw) (mirrored job plan draw) ≡ plan }
    ensures again { (job : Job) (plan : List ℕ) (draw : ℕ) → IsLegal job plan → CanReturn job plan draw →
        mirrored job (next job plan draw) (mirrored job plan draw) ≡ draw }
    ensures block { (job : Job) (plan : List ℕ) (draw : ℕ) → IsLegal job plan →
        mirrored job plan draw / (job.graph.units * job.districts) ≡ draw / (job.graph.units * job.districts) }
    ensures bound { (job : Job) (plan : List ℕ) (draw : ℕ) → IsLegal job plan → draw < 2 ^ 64 → mirrored job plan draw < 2 ^ 64 }
{}

/// Shows that without a weight the next plan is the proposed one if it is legal, else the old one.
pub fn no_weight_refuses_nothing()
    ensures { (job : Job) (plan : List ℕ) (draw : ℕ) → job.setting.cut_weight ≡ 256 →
        next job plan draw ≡ (let proposed = changed plan (proposal job.graph.units job.districts draw) in
        cond (is_legal job proposed) proposed plan) }
{}

/// Shows that the largest change is the greatest m for which draws suffice: below it, and not above it, m + 1 digits in
/// base 64 fit beside each pair.
pub fn largest_change_is_greatest()
    ensures { (pairs m : ℕ) → 0 < pairs → 0 < m → (m ≤ largest_change pairs) ↔ (pairs * 64 ^ (m + 1) ≤ 2 ^ 64) }
{}

/// Shows that the chain without a weight is reversible: for any two legal plans, the same number of draws leads from
/// each to the other.
pub fn ways_are_symmetric()
    ensures { (job : Job) (from to : List ℕ) → job.setting.cut_weight ≡ 256 → IsLegal job from → IsLegal job to →
        ways job from to ≡ ways job to from }
{}

/// Shows that the chain with a weight is reversible to it: for any two legal plans, the weight of one, times the number
/// of draws that lead from it to the other, is the same for both. The ratio of the ways is that of the factors of the
/// cut edges that are added. No draw makes too large a change.
pub fn ways_follow_the_weight()
    ensures ratio { (job : Job) (from to : List ℕ) (d : ℕ) → job.setting.cut_weight ≤ 256 → IsLegal job from → IsLegal job to →
        cut_edges job.graph to ≡ cut_edges job.graph from + d →
        ways job from to * 64 ^ d ≡ ways job to from * factors job.setting.cut_weight (cut_edges job.graph from) d }
    ensures far { (job : Job) (from to : List ℕ) (d : ℕ) → job.setting.cut_weight < 256 → IsLegal job from → IsLegal job to →
        cut_edges job.graph to ≡ cut_edges job.graph from + d → largest_change (job.graph.units * job.districts) < d →
        (ways job from to ≡ 0) × (ways job to from ≡ 0) }
    ensures balance { (job : Job) (from to : List ℕ) → job.setting.cut_weight ≤ 256 → IsLegal job from → IsLegal job to →
        weight job from * ways job from to ≡ weight job to * ways job to from }
{}

/// Shows that the printed bound and p-value are rounded up: each is the least number of billionths that is not below
/// the exact value.
pub fn printed_numbers_are_least()
    ensures bound { (count all : ℕ) → count ≤ all → IsLeast (λ r. nat_le (2 * count * 10 ^ 18) (r * r * all)) (bound count all) }
    ensures p_value { (rank all : ℕ) → 0 < all → IsLeast (λ z. nat_le (rank * 10 ^ 9) (z * all)) (p_value rank all) }
{}

/// Shows that a trajectory from a legal plan visits only legal plans.
pub fn visits_stay_legal()
    ensures { (job : Job) (draws : ℕ → ℕ) (plan : List ℕ) (i : ℕ) → IsLegal job plan → IsLegal job (visit job draws plan i) }
{}

/// Shows that removing the histogram from a trajectory's outcome gives the outcome of a job without histograms.
pub fn outcomes_without_histogram_match()
    ensures { (job : Job) (draws : Draws) (id : ℕ) → without_histogram (whole job draws id) ≡ outcome_with false job draws id }
{}

/// Shows that a run resumes from right outcomes if the outcomes in the slots are consistent: each is its trajectory's
/// outcome, with its histogram or without it. A job without histograms removes the histograms. A job with histograms
/// leaves out walks that have none.
pub fn consistent_runs_go_on_rightly()
    ensures { (job : Job) (draws : Draws) (outcomes : List Outcome) → IsConsistent job draws outcomes →
        IsRight job draws (taken_up job.setting.shift job.setting.walks outcomes) }
{}

/// Shows that each trajectory's outcome, with its histogram or without it, is plausible for the job.
pub fn what_is_found_fits()
    ensures { (with_histogram : Bool) (job : Job) (draws : Draws) (id : ℕ) → length job.setting.asks ≤ 4 → id < total job →
        IsTrue (fits job (outcome_with with_histogram job draws id)) }
{}

/// Shows that a plausible outcome stays plausible if its histogram is removed.
pub fn outcomes_fit_without_histogram()
    ensures { (job : Job) (o : Outcome) → IsTrue (fits job o) → IsTrue (fits job (without_histogram o)) }
{}

/// Shows that rules without regions, required majorities or frozen units allow every plan, if the limit on cut edges is
/// at least the number of edges.
pub fn default_rules_limit_nothing()
    ensures { (job : Job) (plan : List ℕ) → count_edges job.graph (λ u v. true) ≤ job.setting.max_cut → job.regions ≡ [] →
        job.setting.group_districts ≡ 0 → job.frozen ≡ [] → Meets (rules job) (cut_edges job.graph plan) plan }
{}

/// Shows that rules with every limit at its default, no required majorities and no frozen unit allow every plan of the
/// job's districts. There may be regions.
pub fn unlimited_rules_limit_nothing()
    ensures { (job : Job) (plan : List ℕ) → IsWithinLimits job → ((u : ℕ) → u < length plan → slice_index plan u < job.districts) →
        job.setting.max_cut ≡ most_edges → job.setting.max_split ≡ most_districts → job.setting.max_splits ≡ most_splits →
        job.setting.max_split_regions ≡ most_regions → job.setting.group_districts ≡ 0 → job.frozen ≡ [] → Meets (rules job) (cut_edges job.graph plan) plan }
{}

/// Shows that the population bounds are two integers: a population is within the bounds exactly if it is at least the
/// one and at most the other.
pub fn bounds_are_two_numbers()
    ensures both { (job : Job) (population : ℕ) → 0 < job.districts →
        IsBalanced job population ↔ ((least_population job ≤ population) × (population ≤ greatest_population job)) }
    ensures lower { (job : Job) (population : ℕ) → 0 < job.districts →
        ((10000 - job.setting.slack) * total_population job ≤ 10000 * job.districts * population) ↔ (least_population job ≤ population) }
    ensures upper { (job : Job) (population : ℕ) → 0 < job.districts →
        (10000 * job.districts * population ≤ (10000 + job.setting.slack) * total_population job) ↔ (population ≤ greatest_population job) }
{}

/// Shows that a start plan is accepted exactly if it is legal and, if the efficiency gap is asked for, there are votes.
pub fn accepted_plans_are_legal()
    ensures { (job : Job) → length job.start ≡ job.graph.units → ((u : ℕ) → u < job.graph.units → slice_index job.start u < job.districts) →
        (plan_fault job ≡ None) ↔ (IsFalse (has_no_votes job) × IsLegal job job.start) }
{}

/// Shows that a district stays connected after a unit leaves if the unit's neighbors in the district are connected
/// among themselves.
pub fn local_units_may_leave()
    ensures { (g : Graph) (plan : List ℕ) (u : ℕ) → IsSimple g → IsLocal g plan u →
        IsConnected g (in_district plan (slice_index plan u)) → MayLeave g plan u }
{}

/// Shows that a resumed run ends with the same outcomes as a run by one thread, if its initial outcomes are right and
/// it walks every pending id.
pub fn resumed_runs_add_up()
    ensures { (job : Job) (draws : Draws) (initial_outcomes : List Outcome) (budget : ℕ) → IsRight job draws initial_outcomes →
        ((id : ℕ) → id < total job → IsTrue (has_id initial_outcomes id || has (run_ids job initial_outcomes budget) id)) →
        full job draws initial_outcomes budget ≡ sequence job draws }
{}

/// Shows that the parts of a job cover it: each pending id is walked by exactly one part.
///
/// With enough budget, a part walks the pending ids that leave its remainder, each once. Each id leaves one remainder,
/// so no two parts walk the same id. A job in a single part walks all pending ids, up to the budget.
pub fn parts_make_the_whole()
    ensures each { (parts part : ℕ) (job : Job) (initial_outcomes : List Outcome) (id : ℕ) →
        has (part_ids parts part job initial_outcomes (total job)) id ≡ (has (pending_ids job initial_outcomes) id && is_in_part parts part id) }
    ensures within { (parts part : ℕ) (job : Job) (initial_outcomes : List Outcome) (budget id : ℕ) → IsTrue (has (part_ids parts part job initial_outcomes budget) id) →
        (id < total job) × (IsFalse (has_id initial_outcomes id) × (id % parts ≡ part)) }
    ensures once { (parts part : ℕ) (job : Job) (initial_outcomes : List Outcome) (budget : ℕ) → AllApart (part_ids parts part job initial_outcomes budget) }
    ensures one { (job : Job) (initial_outcomes : List Outcome) (budget : ℕ) → part_ids 1 0 job initial_outcomes budget ≡ take budget (pending_ids job initial_outcomes) }
{}

/// Shows that once enough values are in the tail, later values do not change where an early-stopping test stops.
pub fn stops_are_decided()
    ensures { (tail : Tail) (start : ℤ) (values later : List ℤ) (enough : ℕ) → enough ≤ count_in_tail tail start values →
        stop tail start (values ++ later) enough ≡ stop tail start values enough }
{}

/// Shows that the run machine keeps its invariant `IsRun` under all events, halts included.
pub fn runs_stay_right()
    ensures start { (parts part total budget workers : ℕ) (ids : List ℕ) → AllApart ids → ((id : ℕ) → IsTrue (has ids id) → id < total) →
        IsRun (started_part parts part total budget workers ids) }
    ensures events { (m : Machine) (events : List Event) → IsRun m → IsRun (state_after m events) }
{}
