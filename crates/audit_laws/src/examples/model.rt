//! Computed examples of plans, steps, scores, outcomes and runs. Each is the contract of an empty function.

ghost use Rattle.std.specs.Prelude.{◌≡◌, ◌-◌, ◌^◌, [], ◌∷◌, Some, None, map, true, false, pos, negsuc};
ghost use Rattle.audit_model.specs.declared.setting.Score.TheVariants.{Seats, MeanMedian, Gap, CutEdges};
ghost use Rattle.audit_model.specs.declared.setting.Tail.TheVariants.{Low, High};
ghost use Rattle.audit_laws.specs.Jobs.{run_of, no_group, path_of_four, cycle_of_four, path_of_three, job_of_four, job_of_three, job_of_three_districts, ring_of_six, grid_of_nine, triangle, first_draws, first_draws_alone, found_once};
ghost use Rattle.audit_model.specs.declared.outcome.Event.TheVariants as event;
ghost use Rattle.audit_model.specs.declared.outcome.Did.TheVariants as did;
ghost use Rattle.audit_model.specs.declared.fault.PlanFault.TheVariants.{OutOfBounds, Disconnected};
ghost use Rattle.audit_model.specs.JobOf.{plan_fault};
ghost use Rattle.audit_model.specs.Machine.{new_machine, answers_to};
ghost use Rattle.audit_model.specs.Local.{is_mate, stays_behind};
ghost use Rattle.audit_model.specs.Path.{is_connected};
ghost use Rattle.audit_model.specs.Run.{part_ids, run_ids};
ghost use Rattle.audit_model.specs.Step.{next, mirrored};
ghost use Rattle.audit_model.specs.Plan.{is_legal};
ghost use Rattle.audit_model.specs.Proposal.{proposal};
ghost use Rattle.audit_model.specs.Score.{value, sums_of};
ghost use Rattle.audit_model.specs.Test.{bound, p_value};
ghost use Rattle.audit_model.specs.Trajectory.{visit, outcome, empty_histogram, plan_value, rank_among};

/// Shows that the last draws propose nothing, so that each pair of unit and district has equally many draws.
pub fn last_draws_propose_nothing()
    ensures last { proposal 3 3 (2 ^ 64 - 1) ≡ None }
    ensures seventh { proposal 3 3 (2 ^ 64 - 7) ≡ None }
    ensures eighth { proposal 3 3 (2 ^ 64 - 8) ≡ Some (2, 2) }
{}

/// Shows that the legal plans of a path have contiguous districts.
pub fn legal_plans_of_a_path()
    ensures start { is_legal (job_of_four path_of_four (run_of 5000 1 8 0 1000 [])) (0 ∷ 0 ∷ 1 ∷ 1 ∷ []) ≡ true }
    ensures moved { is_legal (job_of_four path_of_four (run_of 5000 1 8 0 1000 [])) (0 ∷ 1 ∷ 1 ∷ 1 ∷ []) ≡ true }
    ensures parted { is_legal (job_of_four path_of_four (run_of 5000 1 8 0 1000 [])) (0 ∷ 1 ∷ 0 ∷ 1 ∷ []) ≡ false }
    ensures narrow { is_legal (job_of_four path_of_four (run_of 0 1 8 0 1000 [])) (0 ∷ 1 ∷ 1 ∷ 1 ∷ []) ≡ false }
{}

/// Shows the plans that the first eight draws visit on a path. Only the last draw moves a unit.
pub fn visits_on_a_path()
    ensures third { visit (job_of_four path_of_four (run_of 5000 1 8 0 1000 [])) (first_draws_alone 0) (0 ∷ 0 ∷ 1 ∷ 1 ∷ []) 7 ≡ 0 ∷ 0 ∷ 1 ∷ 1 ∷ [] }
    ensures eighth { visit (job_of_four path_of_four (run_of 5000 1 8 0 1000 [])) (first_draws_alone 0) (0 ∷ 0 ∷ 1 ∷ 1 ∷ []) 8 ≡ 0 ∷ 1 ∷ 1 ∷ 1 ∷ [] }
{}

/// Shows the outcomes of the trajectories on the path and on the cycle.
pub fn small_outcomes()
    ensures path { outcome (job_of_four path_of_four (run_of 5000 1 8 0 1000 (record { score = Seats; tail = Low } ∷ []))) first_draws_alone 0
        ≡ record { id = 0; moved = 1; values = pos 9 ∷ pos 0 ∷ pos 0 ∷ pos 0 ∷ []; bins = empty_histogram } }
    ensures cycle { outcome (job_of_four cycle_of_four (run_of 5000 1 8 0 1000 (record { score = Gap; tail = Low } ∷ record { score = Gap; tail = High } ∷ []))) first_draws_alone 0
        ≡ record { id = 0; moved = 3; values = pos 4 ∷ pos 8 ∷ pos 0 ∷ pos 0 ∷ []; bins = empty_histogram } }
    ensures cut { outcome (job_of_four cycle_of_four (run_of 5000 1 8 0 1000 (record { score = CutEdges; tail = Low } ∷ []))) first_draws_alone 0
        ≡ record { id = 0; moved = 3; values = pos 9 ∷ pos 0 ∷ pos 0 ∷ pos 0 ∷ []; bins = empty_histogram } }
{}

/// Shows the scores of three districts.
pub fn small_scores()
    ensures seats { value Seats (record { population = []; first = 0 ∷ 3 ∷ 5 ∷ []; second = 0 ∷ 3 ∷ 2 ∷ []; cut = 0; length = 0 }) ≡ pos 1 }
    ensures gap { value Gap (record { population = []; first = 0 ∷ 3 ∷ 5 ∷ []; second = 0 ∷ 3 ∷ 2 ∷ []; cut = 0; length = 0 }) ≡ negsuc 4 }
    ensures mean_median { value MeanMedian (record { population = []; first = 0 ∷ 3 ∷ 5 ∷ []; second = 0 ∷ 3 ∷ 2 ∷ []; cut = 0; length = 0 }) ≡ negsuc 428571427 }
    ensures odd { value MeanMedian (record { population = []; first = 6 ∷ 5 ∷ 1 ∷ []; second = 4 ∷ 5 ∷ 3 ∷ []; cut = 0; length = 0 }) ≡ pos 300000000 }
{}

/// Shows the gap of the plans of a cycle of four units.
pub fn gaps_on_a_cycle()
    ensures start { plan_value (job_of_four cycle_of_four (run_of 5000 1 8 0 1000 [])) (0 ∷ 0 ∷ 1 ∷ 1 ∷ []) Gap ≡ negsuc 0 }
    ensures second { plan_value (job_of_four cycle_of_four (run_of 5000 1 8 0 1000 [])) (0 ∷ 0 ∷ 1 ∷ 0 ∷ []) Gap ≡ pos 5 }
    ensures third { plan_value (job_of_four cycle_of_four (run_of 5000 1 8 0 1000 [])) (0 ∷ 1 ∷ 1 ∷ 1 ∷ []) Gap ≡ negsuc 6 }
{}

/// Shows numbers of billionths, rounded up.
pub fn small_numbers_of_billionths()
    ensures rare { bound 1 1000000 ≡ 1414214 }
    ensures exact { bound 2 4 ≡ 1000000000 }
    ensures four_of_nine { bound 4 9 ≡ 942809042 }
    ensures eight_of_nine { bound 8 9 ≡ 1333333334 }
    ensures third { p_value 1 3 ≡ 333333334 }
    ensures whole { p_value 3 3 ≡ 1000000000 }
{}

/// Shows the answers of two run machines, one with two ids and one with a single id.
pub fn answers_of_a_small_run()
    ensures two { answers_to (new_machine 2 32)
        (event.Claim 0 ∷ event.Claim 1 ∷ event.Claim 2 ∷ event.Post 1 ∷ event.Save ∷ event.Post 1 ∷ event.Halt ∷ event.Claim 0 ∷ [])
        ≡ did.Claimed 0 ∷ did.Claimed 1 ∷ did.Empty ∷ did.Posted 1 ∷ did.Saved 1 ∷ did.Idle ∷ did.Halted ∷ did.Claimed 0 ∷ [] }
    ensures one { answers_to (new_machine 1 32)
        (event.Claim 32 ∷ event.Claim 0 ∷ event.Claim 0 ∷ event.Halt ∷ event.Post 0 ∷ event.Claim 5 ∷ event.Post 5 ∷ event.Save ∷ event.Halt ∷ event.Claim 0 ∷ [])
        ≡ did.Idle ∷ did.Claimed 0 ∷ did.Idle ∷ did.Halted ∷ did.Idle ∷ did.Claimed 0 ∷ did.Posted 0 ∷ did.Saved 1 ∷ did.Halted ∷ did.Empty ∷ [] }
{}

/// Shows refused start plans.
pub fn refused_plans()
    ensures bounds { plan_fault (record {
      graph = path_of_three;
      counts = record { population = 3 ∷ 3 ∷ 4 ∷ []; first = 1 ∷ 1 ∷ 1 ∷ []; second = 0 ∷ 0 ∷ 0 ∷ []; lengths = [] };
      start = 0 ∷ 1 ∷ 2 ∷ [];
      districts = 3;
      setting = run_of 1000 1 8 0 1000 [];
      regions = [];
      group = no_group;
      frozen = [];
      origin = None;
    }) ≡ Some (OutOfBounds 2 4 3 3) }
    ensures parted { plan_fault (record {
      graph = path_of_three;
      counts = record { population = 1 ∷ 1 ∷ 1 ∷ []; first = 1 ∷ 1 ∷ 1 ∷ []; second = 0 ∷ 0 ∷ 0 ∷ []; lengths = [] };
      start = 0 ∷ 1 ∷ 0 ∷ [];
      districts = 2;
      setting = run_of 5000 1 8 0 1000 [];
      regions = [];
      group = no_group;
      frozen = [];
      origin = None;
    }) ≡ Some (Disconnected 0 0 2) }
{}

/// Shows the outcomes of the trajectories on three units and with three districts.
pub fn more_outcomes()
    ensures three { outcome (job_of_three (run_of 5000 1 8 0 1000 (record { score = Seats; tail = High } ∷ record { score = Gap; tail = High } ∷ []))) first_draws_alone 0
        ≡ record { id = 0; moved = 1; values = pos 2 ∷ pos 2 ∷ pos 0 ∷ pos 0 ∷ []; bins = empty_histogram } }
    ensures districts { outcome (job_of_three_districts (run_of 5000 1 8 0 1000 (record { score = MeanMedian; tail = High } ∷ []))) first_draws_alone 0
        ≡ record { id = 0; moved = 1; values = pos 4 ∷ pos 0 ∷ pos 0 ∷ pos 0 ∷ []; bins = empty_histogram } }
{}

/// Shows the scores of plans on three units and with three districts.
pub fn more_scores()
    ensures seats { plan_value (job_of_three (run_of 5000 1 8 0 1000 [])) (0 ∷ 1 ∷ 1 ∷ []) Seats ≡ pos 2 }
    ensures gap { plan_value (job_of_three (run_of 5000 1 8 0 1000 [])) (0 ∷ 1 ∷ 1 ∷ []) Gap ≡ pos 4 }
    ensures moved_gap { plan_value (job_of_three (run_of 5000 1 8 0 1000 [])) (0 ∷ 0 ∷ 1 ∷ []) Gap ≡ negsuc 11 }
    ensures mean_median { plan_value (job_of_three_districts (run_of 5000 1 8 0 1000 [])) (0 ∷ 0 ∷ 1 ∷ 2 ∷ []) MeanMedian ≡ pos 500000000 }
    ensures moved_mean_median { plan_value (job_of_three_districts (run_of 5000 1 8 0 1000 [])) (0 ∷ 1 ∷ 1 ∷ 2 ∷ []) MeanMedian ≡ pos 14285712 }
    ensures even { plan_value (job_of_four cycle_of_four (run_of 5000 1 8 0 1000 [])) (0 ∷ 1 ∷ 1 ∷ 1 ∷ []) MeanMedian ≡ pos 0 }
{}

/// Shows where the local certificate holds, and which units may leave their district.
pub fn small_certificates()
    ensures ring_local { is_connected ring_of_six (is_mate ring_of_six (0 ∷ 0 ∷ 0 ∷ 0 ∷ 0 ∷ 0 ∷ 1 ∷ []) 0) ≡ false }
    ensures ring_leaves { is_connected ring_of_six (stays_behind (0 ∷ 0 ∷ 0 ∷ 0 ∷ 0 ∷ 0 ∷ 1 ∷ []) 0) ≡ true }
    ensures middle_local { is_connected path_of_three (is_mate path_of_three (0 ∷ 0 ∷ 0 ∷ []) 1) ≡ false }
    ensures middle_leaves { is_connected path_of_three (stays_behind (0 ∷ 0 ∷ 0 ∷ []) 1) ≡ false }
    ensures alone_local { is_connected path_of_three (is_mate path_of_three (0 ∷ 1 ∷ 0 ∷ []) 1) ≡ false }
    ensures alone_leaves { is_connected path_of_three (stays_behind (0 ∷ 1 ∷ 0 ∷ []) 1) ≡ false }
    ensures corner_local { is_connected grid_of_nine (is_mate grid_of_nine (1 ∷ 0 ∷ 0 ∷ 0 ∷ 0 ∷ 0 ∷ 0 ∷ 0 ∷ 0 ∷ []) 8) ≡ false }
    ensures corner_leaves { is_connected grid_of_nine (stays_behind (1 ∷ 0 ∷ 0 ∷ 0 ∷ 0 ∷ 0 ∷ 0 ∷ 0 ∷ 0 ∷ []) 8) ≡ true }
    ensures triangle_local { is_connected triangle (is_mate triangle (0 ∷ 0 ∷ 0 ∷ 1 ∷ []) 0) ≡ true }
{}

/// Shows the mirrored draw, which leads back. The mirrored draw of a rejected proposal is the draw itself.
pub fn small_mirrors()
    ensures back { mirrored (job_of_four path_of_four (run_of 5000 1 8 0 1000 [])) (0 ∷ 0 ∷ 1 ∷ 1 ∷ []) 0x8665eeb269b687c3 ≡ 0x8665eeb269b687c2 }
    ensures leads { next (job_of_four path_of_four (run_of 5000 1 8 0 1000 [])) (0 ∷ 1 ∷ 1 ∷ 1 ∷ []) 0x8665eeb269b687c2 ≡ 0 ∷ 0 ∷ 1 ∷ 1 ∷ [] }
    ensures rejected { mirrored (job_of_four path_of_four (run_of 5000 1 8 0 1000 [])) (0 ∷ 0 ∷ 1 ∷ 1 ∷ []) 0x903df1a0ade0b876 ≡ 0x903df1a0ade0b876 }
{}

/// Shows the sums after the last unit of the cycle moves.
pub fn small_sums()
    ensures { sums_of cycle_of_four (record { population = 1 ∷ 1 ∷ 1 ∷ 1 ∷ []; first = 3 ∷ 1 ∷ 1 ∷ 2 ∷ []; second = 1 ∷ 2 ∷ 2 ∷ 1 ∷ []; lengths = [] }) 2 (0 ∷ 0 ∷ 1 ∷ 0 ∷ [])
        ≡ record { population = 3 ∷ 1 ∷ []; first = 6 ∷ 1 ∷ []; second = 4 ∷ 2 ∷ []; cut = 2; length = 0 } }
{}

/// Shows the rank of a start plan among three outcomes.
pub fn small_ranks()
    ensures low { rank_among Low (negsuc 0) 0 (record { id = 1; moved = 0; values = negsuc 6 ∷ []; bins = empty_histogram } ∷ record { id = 2; moved = 0; values = pos 5 ∷ []; bins = empty_histogram } ∷ record { id = 3; moved = 0; values = negsuc 0 ∷ []; bins = empty_histogram } ∷ []) ≡ 3 }
    ensures high { rank_among High (negsuc 0) 0 (record { id = 1; moved = 0; values = negsuc 6 ∷ []; bins = empty_histogram } ∷ record { id = 2; moved = 0; values = pos 5 ∷ []; bins = empty_histogram } ∷ record { id = 3; moved = 0; values = negsuc 0 ∷ []; bins = empty_histogram } ∷ []) ≡ 3 }
{}

/// Shows ten trajectories in three parts, with id 4 already done. Each part takes the pending ids with its remainder,
/// up to the budget. A single part takes all pending ids.
pub fn parts_of_ten()
    ensures first { part_ids 3 0 (job_of_four path_of_four (run_of 5000 6 8 4 1000 [])) ((record found_once { id = 4 }) ∷ []) 100 ≡ 0 ∷ 3 ∷ 6 ∷ 9 ∷ [] }
    ensures second { part_ids 3 1 (job_of_four path_of_four (run_of 5000 6 8 4 1000 [])) ((record found_once { id = 4 }) ∷ []) 100 ≡ 1 ∷ 7 ∷ [] }
    ensures third { part_ids 3 2 (job_of_four path_of_four (run_of 5000 6 8 4 1000 [])) ((record found_once { id = 4 }) ∷ []) 100 ≡ 2 ∷ 5 ∷ 8 ∷ [] }
    ensures budget { part_ids 3 0 (job_of_four path_of_four (run_of 5000 6 8 4 1000 [])) ((record found_once { id = 4 }) ∷ []) 2 ≡ 0 ∷ 3 ∷ [] }
    ensures whole { run_ids (job_of_four path_of_four (run_of 5000 6 8 4 1000 [])) ((record found_once { id = 4 }) ∷ []) 100
        ≡ 0 ∷ 1 ∷ 2 ∷ 3 ∷ 5 ∷ 6 ∷ 7 ∷ 8 ∷ 9 ∷ [] }
{}
