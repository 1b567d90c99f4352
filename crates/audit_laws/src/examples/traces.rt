//! Computed examples of traces, each the contract of an empty function.

ghost use Rattle.std.specs.Prelude.{◌≡◌, ◌++◌, [], ◌∷◌, codes, pos, negsuc};
ghost use Rattle.audit_model.specs.declared.setting.Score.TheVariants.{Seats, CutEdges};
ghost use Rattle.audit_model.specs.declared.setting.Tail.TheVariants.{Low};
ghost use Rattle.audit_laws.specs.Jobs.{run_of, path_of_four, cycle_of_four, job_of_four, first_draws_alone};
ghost use Rattle.audit_statement.specs.Trace.{first_lines, plan_line, range_lines, trace_text};

/// Shows that the line of a plan lists the units whose district differs from that in the plan before.
pub fn line_of_a_plan()
    ensures { plan_line 8 3 (pos 4 ∷ negsuc 6 ∷ []) (0 ∷ 0 ∷ 1 ∷ 1 ∷ []) (0 ∷ 1 ∷ 1 ∷ 0 ∷ []) ≡ codes "8 3 4 -7 1:1 3:0" ++ 10 ∷ [] }
{}

/// Shows the trace of eight steps on a path at every third step. Only the last step moves.
pub fn trace_of_a_path()
    ensures { trace_text (job_of_four path_of_four (run_of 5000 1 8 0 1000 (record { score = Seats; tail = Low } ∷ record { score = CutEdges; tail = Low } ∷ []))) first_draws_alone 0 0 3 ≡
        codes "district-trace 1" ++ 10 ∷ codes "key 0000000000000000000000000000000000000000000000000000000000000000" ++ 10 ∷
        codes "units 4 edges 3 districts 2" ++ 10 ∷ codes "population 4 slack 5000 low 1 high 3" ++ 10 ∷
        codes "walks 1 steps 8 ends 0 hub-steps 1000" ++ 10 ∷
        codes "ask seats low start 1/1" ++ 10 ∷ codes "ask cut-edges low start 1/1" ++ 10 ∷
        codes "trace id 0 steps 8 thin 3" ++ 10 ∷
        codes "0 0 1 1" ++ 10 ∷ codes "3 0 1 1" ++ 10 ∷ codes "6 0 1 1" ++ 10 ∷ codes "8 1 1 1 1:1" ++ 10 ∷
        codes "end" ++ 10 ∷ [] }
{}

/// Shows the lines of an endpoint trajectory on a cycle, at every fourth of its eight steps. The first line lists the
/// differences between the hub and the start plan.
pub fn lines_of_an_end()
    ensures { first_lines (job_of_four cycle_of_four (run_of 5000 1 8 1 8 (record { score = Seats; tail = Low } ∷ record { score = CutEdges; tail = Low } ∷ []))) first_draws_alone 1 4 3 ≡
        codes "0 0 1 2 1:1" ++ 10 ∷ codes "4 1 1 2 3:0" ++ 10 ∷ codes "8 4 1 2 3:1" ++ 10 ∷ [] }
{}

/// Shows the lines of a walk and of an endpoint trajectory on the cycle, one section after the other. Each first line
/// is compared with the start plan.
pub fn range_of_a_cycle()
    ensures { range_lines (job_of_four cycle_of_four (run_of 5000 1 8 1 8 (record { score = Seats; tail = Low } ∷ record { score = CutEdges; tail = Low } ∷ []))) first_draws_alone 4 0 2 ≡
        codes "trace id 0 steps 8 thin 4" ++ 10 ∷ codes "0 0 1 2" ++ 10 ∷ codes "4 1 1 2 3:0" ++ 10 ∷ codes "8 3 1 2 1:1 3:1" ++ 10 ∷
        codes "trace id 1 steps 8 thin 4" ++ 10 ∷ codes "0 0 1 2 1:1" ++ 10 ∷ codes "4 1 1 2 3:0" ++ 10 ∷ codes "8 4 1 2 3:1" ++ 10 ∷ [] }
{}
