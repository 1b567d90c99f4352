//! Computed examples of splits in all, of split regions and of a group's majorities.

ghost use Rattle.std.specs.Prelude.{◌≡◌, [], ◌∷◌, ◌++◌, codes, drop, replicate, take, Some, None, true, false, pos};
ghost use Rattle.audit_model.specs.declared.fault.PlanFault.TheVariants.{TooManySplit, TooManySplits, TooManySplitRegions, TooFewMajorities};
ghost use Rattle.audit_model.specs.declared.setting.Score.TheVariants.{Seats};
ghost use Rattle.audit_model.specs.declared.setting.Tail.TheVariants.{Low};
ghost use Rattle.audit_model.specs.JobOf.{plan_fault};
ghost use Rattle.audit_model.specs.Meets.{has_majority, majorities, meets_rules, split_regions, splits_in_all};
ghost use Rattle.audit_model.specs.Trajectory.{empty_histogram, outcome};
ghost use Rattle.audit_statement.specs.Checkpoint.{job_bytes};
ghost use Rattle.audit_statement.specs.Report.{check_text};
ghost use Rattle.audit_laws.specs.Jobs.{run_of, no_group, no_rules, group_of_four, path_of_four, job_of_four, limited_job, first_draws_alone};

/// Shows splits in all and split regions. A region in three districts has two splits, and is one split region whatever
/// its number of units.
pub fn small_split_counts()
    ensures two { splits_in_all (0 ∷ 1 ∷ 1 ∷ 0 ∷ []) (0 ∷ 0 ∷ 1 ∷ 1 ∷ []) ≡ 2 }
    ensures two_regions { split_regions (0 ∷ 1 ∷ 1 ∷ 0 ∷ []) (0 ∷ 0 ∷ 1 ∷ 1 ∷ []) ≡ 2 }
    ensures one { splits_in_all (0 ∷ 0 ∷ 0 ∷ 0 ∷ []) (0 ∷ 0 ∷ 1 ∷ 1 ∷ []) ≡ 1 }
    ensures one_region { split_regions (0 ∷ 0 ∷ 0 ∷ 0 ∷ []) (0 ∷ 0 ∷ 1 ∷ 1 ∷ []) ≡ 1 }
    ensures twice { splits_in_all (0 ∷ 0 ∷ 0 ∷ 1 ∷ []) (0 ∷ 1 ∷ 2 ∷ 2 ∷ []) ≡ 2 }
    ensures same_region { split_regions (0 ∷ 0 ∷ 0 ∷ 1 ∷ []) (0 ∷ 1 ∷ 2 ∷ 2 ∷ []) ≡ 1 }
    ensures whole { splits_in_all (0 ∷ 0 ∷ 1 ∷ 1 ∷ []) (0 ∷ 0 ∷ 1 ∷ 1 ∷ []) ≡ 0 }
    ensures unused { splits_in_all (0 ∷ 2 ∷ 2 ∷ 0 ∷ []) (0 ∷ 0 ∷ 1 ∷ 1 ∷ []) ≡ 2 }
    ensures no_regions { split_regions [] (0 ∷ 0 ∷ 1 ∷ 1 ∷ []) ≡ 0 }
{}

/// Shows the number of majority districts of a group. One half is no majority, and the group may exceed its base
/// population.
pub fn small_majorities()
    ensures half { has_majority 5000 group_of_four (0 ∷ 0 ∷ 1 ∷ 1 ∷ []) 0 ≡ false }
    ensures more { has_majority 5000 group_of_four (0 ∷ 0 ∷ 1 ∷ 1 ∷ []) 1 ≡ true }
    ensures one { majorities 5000 group_of_four (0 ∷ 0 ∷ 1 ∷ 1 ∷ []) ≡ 1 }
    ensures two { majorities 5000 group_of_four (0 ∷ 1 ∷ 1 ∷ 0 ∷ []) ≡ 2 }
    ensures above { majorities 5000 (record { members = 5 ∷ []; whole = 1 ∷ [] }) (0 ∷ []) ≡ 1 }
    ensures of_none { majorities 5000 no_group (0 ∷ 0 ∷ 1 ∷ 1 ∷ []) ≡ 0 }
{}

/// Shows plans within limits and beyond them.
pub fn kept_limits()
    ensures none { meets_rules no_rules 3 (0 ∷ 0 ∷ 1 ∷ 1 ∷ []) ≡ true }
    ensures splits { meets_rules (record no_rules { regions = 0 ∷ 1 ∷ 1 ∷ 0 ∷ []; max_splits = 2 }) 3 (0 ∷ 0 ∷ 1 ∷ 1 ∷ []) ≡ true }
    ensures too_many_splits { meets_rules (record no_rules { regions = 0 ∷ 1 ∷ 1 ∷ 0 ∷ []; max_splits = 1 }) 3 (0 ∷ 0 ∷ 1 ∷ 1 ∷ []) ≡ false }
    ensures regions { meets_rules (record no_rules { regions = 0 ∷ 1 ∷ 1 ∷ 0 ∷ []; max_split_regions = 2 }) 3 (0 ∷ 0 ∷ 1 ∷ 1 ∷ []) ≡ true }
    ensures too_many_regions { meets_rules (record no_rules { regions = 0 ∷ 1 ∷ 1 ∷ 0 ∷ []; max_split_regions = 1 }) 3 (0 ∷ 0 ∷ 1 ∷ 1 ∷ []) ≡ false }
    ensures whole { meets_rules (record no_rules { regions = 0 ∷ 0 ∷ 1 ∷ 1 ∷ []; max_splits = 0; max_split_regions = 0 }) 3 (0 ∷ 0 ∷ 1 ∷ 1 ∷ []) ≡ true }
    ensures majorities { meets_rules (record no_rules { group = group_of_four; group_districts = 1 }) 3 (0 ∷ 0 ∷ 1 ∷ 1 ∷ []) ≡ true }
    ensures too_few { meets_rules (record no_rules { group = group_of_four; group_districts = 2 }) 3 (0 ∷ 0 ∷ 1 ∷ 1 ∷ []) ≡ false }
{}

/// Shows that a start plan that breaks limits is refused for the first of them in this order: the splits of a region,
/// splits in all, split regions, majorities.
pub fn refused_by_limits()
    ensures split { plan_fault (record (limited_job 1 1 2) { setting = record (limited_job 1 1 2).setting { max_split = 1 } }) ≡ Some (TooManySplit 0 2 1) }
    ensures splits { plan_fault (limited_job 1 1 2) ≡ Some (TooManySplits 2 1) }
    ensures regions { plan_fault (limited_job 2 1 2) ≡ Some (TooManySplitRegions 2 1) }
    ensures group { plan_fault (limited_job 2 2 2) ≡ Some (TooFewMajorities 1 2 5000) }
    ensures none { plan_fault (limited_job 2 2 1) ≡ None }
{}

/// Shows the outcome of the trajectory on the path if no region may be split, and if the group must keep two majorities
/// or one.
pub fn walks_within_limits()
    ensures splits { outcome (record (job_of_four path_of_four (record (run_of 5000 1 8 0 1000 (record { score = Seats; tail = Low } ∷ [])) { max_splits = 0 })) { regions = 0 ∷ 0 ∷ 1 ∷ 1 ∷ [] }) first_draws_alone 0
        ≡ record { id = 0; moved = 0; values = pos 9 ∷ pos 0 ∷ pos 0 ∷ pos 0 ∷ []; bins = empty_histogram } }
    ensures regions { outcome (record (job_of_four path_of_four (record (run_of 5000 1 8 0 1000 (record { score = Seats; tail = Low } ∷ [])) { max_split_regions = 0 })) { regions = 0 ∷ 0 ∷ 1 ∷ 1 ∷ [] }) first_draws_alone 0
        ≡ record { id = 0; moved = 0; values = pos 9 ∷ pos 0 ∷ pos 0 ∷ pos 0 ∷ []; bins = empty_histogram } }
    ensures majorities { outcome (record (job_of_four path_of_four (record (run_of 5000 1 8 0 1000 (record { score = Seats; tail = Low } ∷ [])) { group_districts = 2 })) { group = record { members = 0 ∷ 2 ∷ 2 ∷ 0 ∷ []; whole = 1 ∷ 1 ∷ 1 ∷ 1 ∷ [] } }) first_draws_alone 0
        ≡ record { id = 0; moved = 0; values = pos 9 ∷ pos 0 ∷ pos 0 ∷ pos 0 ∷ []; bins = empty_histogram } }
    ensures fewer { outcome (record (job_of_four path_of_four (record (run_of 5000 1 8 0 1000 (record { score = Seats; tail = Low } ∷ [])) { group_districts = 1 })) { group = record { members = 0 ∷ 2 ∷ 2 ∷ 0 ∷ []; whole = 1 ∷ 1 ∷ 1 ∷ 1 ∷ [] } }) first_draws_alone 0
        ≡ record { id = 0; moved = 1; values = pos 9 ∷ pos 0 ∷ pos 0 ∷ pos 0 ∷ []; bins = empty_histogram } }
{}

/// Shows the lines of these limits in the text of a check, below the line of the splits of a region.
pub fn check_text_with_limits()
    ensures { check_text (limited_job 12 9 1) ≡
        codes "plan-check 1" ++ 10 ∷ codes "units 4 edges 3 districts 2" ++ 10 ∷ codes "population 4 slack 5000 low 1 high 3" ++ 10 ∷
        codes "max-split 200 regions 2" ++ 10 ∷ codes "max-splits 12 max-split-regions 9" ++ 10 ∷
        codes "group-districts 1 of 1" ++ 10 ∷ codes "end" ++ 10 ∷ [] }
{}

/// Shows the bytes that a job's digest is computed from. If edges have no lengths, no unit is frozen and the share has
/// its default, this is when they have the third form: there is a group, or there are regions and a limit on splits in
/// all or on split regions.
pub fn bytes_of_limits()
    ensures splits { take 14 (job_bytes (record (job_of_four path_of_four (record (run_of 5000 1 8 0 1000 []) { max_splits = 2 })) { regions = 0 ∷ 1 ∷ 1 ∷ 0 ∷ [] })) ≡ codes "district-job 3" }
    ensures split_regions { take 14 (job_bytes (record (job_of_four path_of_four (record (run_of 5000 1 8 0 1000 []) { max_split_regions = 2 })) { regions = 0 ∷ 1 ∷ 1 ∷ 0 ∷ [] })) ≡ codes "district-job 3" }
    ensures group { take 14 (job_bytes (record (job_of_four path_of_four (run_of 5000 1 8 0 1000 [])) { group = group_of_four })) ≡ codes "district-job 3" }
    ensures regions_alone { take 14 (job_bytes (record (job_of_four path_of_four (run_of 5000 1 8 0 1000 [])) { regions = 0 ∷ 1 ∷ 1 ∷ 0 ∷ [] })) ≡ codes "district-job 2" }
    ensures no_regions { take 14 (job_bytes (job_of_four path_of_four (record (run_of 5000 1 8 0 1000 []) { max_splits = 2; max_split_regions = 2 }))) ≡ codes "district-job 1" }
    ensures splits_behind { drop 218 (job_bytes (record (job_of_four path_of_four (record (run_of 5000 1 8 0 1000 []) { max_splits = 2 })) { regions = 0 ∷ 1 ∷ 1 ∷ 0 ∷ [] })) ≡
        0 ∷ 6 ∷ 26 ∷ 128 ∷ 0 ∷ 0 ∷ 0 ∷ 200 ∷ 0 ∷ 0 ∷ 0 ∷ 0 ∷ 0 ∷ 0 ∷ 0 ∷ 1 ∷ 0 ∷ 0 ∷ 0 ∷ 1 ∷ 0 ∷ 0 ∷ 0 ∷ 0 ∷ 0 ∷ 0 ∷ 0 ∷ 2 ∷ 0 ∷ 0 ∷ 19 ∷ 136 ∷ [] }
    ensures group_behind { drop 218 (job_bytes (record (job_of_four path_of_four (record (run_of 5000 1 8 0 1000 []) { group_districts = 1 })) { group = group_of_four })) ≡
        0 ∷ 6 ∷ 26 ∷ 128 ∷ 0 ∷ 0 ∷ 0 ∷ 1 ∷ [] ++
        replicate 7 0 ++ 1 ∷ [] ++ replicate 7 0 ++ 1 ∷ [] ++ replicate 7 0 ++ 0 ∷ [] ++ replicate 7 0 ++ 1 ∷ [] ++
        replicate 7 0 ++ 2 ∷ [] ++ replicate 7 0 ++ 2 ∷ [] ++ replicate 7 0 ++ 1 ∷ [] ++ replicate 7 0 ++ 2 ∷ [] }
{}
