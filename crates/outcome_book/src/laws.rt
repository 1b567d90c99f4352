//! Laws of outcomes by rising id, and of the sums of histograms.

ghost use Rattle.std.specs.Prelude.{◌≡◌, ℕ, ◌+◌, ◌<◌, Bool, IsTrue, All, List, map, sum};
ghost use Rattle.audit_model.specs.Below.{filter_below};
ghost use Rattle.audit_model.specs.Job.{Job};
ghost use Rattle.audit_model.specs.JobOf.{IsJob};
ghost use Rattle.audit_model.specs.Run.{fits, has_id, by_id};
ghost use Rattle.audit_model.specs.Trajectory.{Draws, outcome, whole};
ghost use Rattle.audit_model.specs.declared.outcome.Outcome.{Outcome};
ghost use Rattle.outcome_book.specs.Booked.{HasFewVisits};

/// Shows how to compute a list by rising id: if each outcome is `f` of its id, then the list is `f`
/// of each id in turn.
pub fn outcomes_by_id_are_mapped()
    ensures { (total : ℕ) (outcomes : List Outcome) (test : ℕ → Bool) (f : ℕ → Outcome) → All (λ o. o ≡ f o.id) outcomes →
        ((id : ℕ) → id < total → has_id outcomes id ≡ test id) → by_id total outcomes ≡ map f (filter_below total test) }
{}

/// Shows that an outcome's histogram counts at most as many visits as the outcome table can add up.
/// This holds for the outcome of a trajectory, and for every outcome that is plausible for the job.
pub fn outcomes_have_few_visits()
    ensures found { (job : Job) (draws : Draws) (id : ℕ) → IsJob job → HasFewVisits (outcome job draws id) }
    ensures fit { (job : Job) (o : Outcome) → IsJob job → IsTrue (fits job o) → HasFewVisits o }
{}

/// Shows that the bins of a walk's histogram add up to the number of plans that the walk visits.
pub fn histograms_of_walks_add_up()
    ensures { (job : Job) (draws : Draws) (id : ℕ) → id < job.setting.walks → sum (whole job draws id).bins ≡ job.setting.steps + 1 }
{}
