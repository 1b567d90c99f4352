//! Computed examples of the rules beyond population and contiguity.

ghost use Rattle.std.specs.Prelude.{◌≡◌, [], ◌∷◌, ◌++◌, codes, drop, length, take, Some, None, true, false, pos};
ghost use Rattle.audit_model.specs.declared.fault.PlanFault.TheVariants.{TooManyCut, TooManySplit};
ghost use Rattle.audit_model.specs.declared.setting.Score.TheVariants.{Seats, CutEdges};
ghost use Rattle.audit_model.specs.declared.setting.Tail.TheVariants.{Low};
ghost use Rattle.audit_model.specs.JobOf.{plan_fault};
ghost use Rattle.audit_model.specs.Meets.{meets_rules, region_count, split_of};
ghost use Rattle.audit_model.specs.Plan.{cut_edges};
ghost use Rattle.audit_model.specs.Trajectory.{empty_histogram, outcome};
ghost use Rattle.audit_statement.specs.Checkpoint.{job_bytes};
ghost use Rattle.audit_statement.specs.Report.{check_text};
ghost use Rattle.audit_laws.specs.Jobs.{run_of, no_rules, path_of_four, square_with_diagonal, job_of_four, first_draws_alone};

/// Shows the number of cut edges of a plan, and the number of districts of a split region.
pub fn small_splits()
    ensures cut { cut_edges square_with_diagonal (0 ∷ 0 ∷ 1 ∷ 1 ∷ []) ≡ 3 }
    ensures regions { region_count (0 ∷ 0 ∷ 1 ∷ 1 ∷ []) ≡ 2 }
    ensures no_regions { region_count [] ≡ 0 }
    ensures whole { split_of (0 ∷ 0 ∷ 1 ∷ 1 ∷ []) (0 ∷ 0 ∷ 1 ∷ 1 ∷ []) 0 ≡ 1 }
    ensures split { split_of (0 ∷ 1 ∷ 1 ∷ 0 ∷ []) (0 ∷ 0 ∷ 1 ∷ 1 ∷ []) 0 ≡ 2 }
    ensures unused { split_of (0 ∷ 1 ∷ 1 ∷ 0 ∷ []) (0 ∷ 0 ∷ 1 ∷ 1 ∷ []) 5 ≡ 0 }
    ensures meets { meets_rules (record no_rules { max_cut = 3; regions = 0 ∷ 1 ∷ 1 ∷ 0 ∷ []; max_split = 2 }) 3 (0 ∷ 0 ∷ 1 ∷ 1 ∷ []) ≡ true }
    ensures cuts_too_many { meets_rules (record no_rules { max_cut = 2 }) 3 (0 ∷ 0 ∷ 1 ∷ 1 ∷ []) ≡ false }
    ensures splits_too_often { meets_rules (record no_rules { max_cut = 3; regions = 0 ∷ 1 ∷ 1 ∷ 0 ∷ []; max_split = 1 }) 3 (0 ∷ 0 ∷ 1 ∷ 1 ∷ []) ≡ false }
{}

/// Shows start plans that cut too many edges, or split a region among too many districts.
pub fn refused_by_rules()
    ensures cut { plan_fault (job_of_four square_with_diagonal (record (run_of 5000 1 8 0 1000 []) { max_cut = 2 })) ≡ Some (TooManyCut 3 2) }
    ensures enough { plan_fault (job_of_four square_with_diagonal (record (run_of 5000 1 8 0 1000 []) { max_cut = 3 })) ≡ None }
    ensures split { plan_fault (record (job_of_four path_of_four (record (run_of 5000 1 8 0 1000 []) { max_split = 1 })) { regions = 0 ∷ 1 ∷ 1 ∷ 0 ∷ [] }) ≡ Some (TooManySplit 0 2 1) }
{}

/// Shows the outcome of the trajectory on the square with a diagonal, with and without a limit on cut edges.
pub fn limited_cut_edges()
    ensures free { outcome (record (job_of_four square_with_diagonal (run_of 5000 1 8 0 1000 (record { score = CutEdges; tail = Low } ∷ []))) { start = 0 ∷ 1 ∷ 0 ∷ 0 ∷ [] }) first_draws_alone 0
        ≡ record { id = 0; moved = 4; values = pos 3 ∷ pos 0 ∷ pos 0 ∷ pos 0 ∷ []; bins = empty_histogram } }
    ensures limited { outcome (record (job_of_four square_with_diagonal (record (run_of 5000 1 8 0 1000 (record { score = CutEdges; tail = Low } ∷ [])) { max_cut = 2 })) { start = 0 ∷ 1 ∷ 0 ∷ 0 ∷ [] }) first_draws_alone 0
        ≡ record { id = 0; moved = 0; values = pos 9 ∷ pos 0 ∷ pos 0 ∷ pos 0 ∷ []; bins = empty_histogram } }
{}

/// Shows the outcome of the trajectory on the path if no region may be split, and if each may lie in two districts.
pub fn whole_regions()
    ensures whole { outcome (record (job_of_four path_of_four (record (run_of 5000 1 8 0 1000 (record { score = Seats; tail = Low } ∷ [])) { max_split = 1 })) { regions = 0 ∷ 0 ∷ 1 ∷ 1 ∷ [] }) first_draws_alone 0
        ≡ record { id = 0; moved = 0; values = pos 9 ∷ pos 0 ∷ pos 0 ∷ pos 0 ∷ []; bins = empty_histogram } }
    ensures split { outcome (record (job_of_four path_of_four (record (run_of 5000 1 8 0 1000 (record { score = Seats; tail = Low } ∷ [])) { max_split = 2 })) { regions = 0 ∷ 0 ∷ 1 ∷ 1 ∷ [] }) first_draws_alone 0
        ≡ record { id = 0; moved = 1; values = pos 9 ∷ pos 0 ∷ pos 0 ∷ pos 0 ∷ []; bins = empty_histogram } }
{}

/// Shows the lines of the rules in the text of a check.
pub fn check_text_with_rules()
    ensures { check_text (record (job_of_four path_of_four (record (run_of 5000 1 8 0 1000 []) { max_cut = 2; max_split = 1 })) { regions = 0 ∷ 0 ∷ 1 ∷ 1 ∷ [] }) ≡
        codes "plan-check 1" ++ 10 ∷ codes "units 4 edges 3 districts 2" ++ 10 ∷ codes "population 4 slack 5000 low 1 high 3" ++ 10 ∷
        codes "max-cut 2" ++ 10 ∷ codes "max-split 1 regions 2" ++ 10 ∷ codes "end" ++ 10 ∷ [] }
{}

/// Shows the bytes that a job's digest is computed from. The bytes of a job without rules come first, then the limit on
/// cut edges, the limit on districts per region, and the regions.
pub fn bytes_of_rules()
    ensures plain { take 14 (job_bytes (job_of_four path_of_four (run_of 5000 1 8 0 1000 []))) ≡ codes "district-job 1" }
    ensures length { length (job_bytes (job_of_four path_of_four (run_of 5000 1 8 0 1000 []))) ≡ 218 }
    ensures cut { take 14 (job_bytes (job_of_four path_of_four (record (run_of 5000 1 8 0 1000 []) { max_cut = 3 }))) ≡ codes "district-job 2" }
    ensures cut_behind { drop 218 (job_bytes (job_of_four path_of_four (record (run_of 5000 1 8 0 1000 []) { max_cut = 3 }))) ≡ 0 ∷ 0 ∷ 0 ∷ 3 ∷ [] }
    ensures regions { drop 218 (job_bytes (record (job_of_four path_of_four (run_of 5000 1 8 0 1000 [])) { regions = 0 ∷ 1 ∷ 1 ∷ 0 ∷ [] })) ≡
        0 ∷ 6 ∷ 26 ∷ 128 ∷ 0 ∷ 0 ∷ 0 ∷ 200 ∷ 0 ∷ 0 ∷ 0 ∷ 0 ∷ 0 ∷ 0 ∷ 0 ∷ 1 ∷ 0 ∷ 0 ∷ 0 ∷ 1 ∷ 0 ∷ 0 ∷ 0 ∷ 0 ∷ [] }
{}
