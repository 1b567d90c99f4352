//! Computed examples of lengths of edges, and of the total length of cut edges with its limit.

ghost use Rattle.std.specs.Prelude.{◌≡◌, [], ◌∷◌, ◌++◌, codes, drop, take, Some, None, Ok, Err, true, false, pos};
ghost use Rattle.audit_model.specs.declared.fault.GraphFault.TheVariants.{MissingLength, BadLength, UnequalLengths};
ghost use Rattle.audit_model.specs.declared.fault.Name.TheVariants as name;
ghost use Rattle.audit_model.specs.declared.fault.PlanFault.TheVariants as plan;
ghost use Rattle.audit_model.specs.declared.fault.WordFault.TheVariants as word;
ghost use Rattle.audit_model.specs.declared.setting.Label.TheVariants.{Whole};
ghost use Rattle.audit_model.specs.declared.setting.Score.TheVariants.{CutLength};
ghost use Rattle.audit_model.specs.declared.setting.Tail.TheVariants.{Low, High};
ghost use Rattle.audit_model.specs.JobOf.{plan_fault};
ghost use Rattle.audit_model.specs.Length.{cut_length};
ghost use Rattle.audit_model.specs.Plan.{is_legal};
ghost use Rattle.audit_model.specs.Trajectory.{empty_histogram, outcome};
ghost use Rattle.audit_statement.specs.Checkpoint.{job_bytes};
ghost use Rattle.audit_statement.specs.Note.{note, bad_graph, bad_plan};
ghost use Rattle.audit_statement.specs.Reading.{reading};
ghost use Rattle.audit_statement.specs.Report.{check_text};
ghost use Rattle.audit_statement.specs.Words.{setting_of};
ghost use Rattle.audit_laws.specs.Jobs.{run_of, counts_of_votes, path_of_four, job_of_four, job_of_lengths, first_draws_alone};
ghost use Rattle.audit_laws.specs.Lines.{run_words};
ghost use Rattle.audit_laws.specs.Texts.{columns, cycle_text, length_text, path_text, parsed_four, unequal_text};

/// Shows that the total length of cut edges counts each cut edge once, and is 0 if edges have no lengths.
pub fn small_lengths()
    ensures one { cut_length path_of_four (9 ∷ 9 ∷ 7 ∷ 7 ∷ 5 ∷ 5 ∷ []) (0 ∷ 0 ∷ 1 ∷ 1 ∷ []) ≡ 7 }
    ensures two { cut_length path_of_four (9 ∷ 9 ∷ 7 ∷ 7 ∷ 5 ∷ 5 ∷ []) (0 ∷ 1 ∷ 1 ∷ 0 ∷ []) ≡ 14 }
    ensures all { cut_length path_of_four (9 ∷ 9 ∷ 7 ∷ 7 ∷ 5 ∷ 5 ∷ []) (0 ∷ 1 ∷ 0 ∷ 1 ∷ []) ≡ 21 }
    ensures none { cut_length path_of_four (9 ∷ 9 ∷ 7 ∷ 7 ∷ 5 ∷ 5 ∷ []) (0 ∷ 0 ∷ 0 ∷ 0 ∷ []) ≡ 0 }
    ensures no_lengths { cut_length path_of_four [] (0 ∷ 1 ∷ 0 ∷ 1 ∷ []) ≡ 0 }
{}

/// Shows that a plan is legal if the total length of its cut edges equals the limit, and not legal if it is greater.
pub fn plans_with_lengths()
    ensures short { is_legal (job_of_lengths 7 []) (0 ∷ 0 ∷ 1 ∷ 1 ∷ []) ≡ true }
    ensures long { is_legal (job_of_lengths 6 []) (0 ∷ 0 ∷ 1 ∷ 1 ∷ []) ≡ false }
    ensures start { plan_fault (job_of_lengths 7 []) ≡ None }
    ensures too_long { plan_fault (job_of_lengths 6 []) ≡ Some (plan.TooLong 7 6) }
{}

/// Shows a trajectory with the score `cut-length`. It moves to a plan with a cut edge of length 9 unless the limit is
/// lower.
pub fn walks_with_lengths()
    ensures free { outcome (job_of_lengths 9 (record { score = CutLength; tail = Low } ∷ record { score = CutLength; tail = High } ∷ [])) first_draws_alone 0
        ≡ record { id = 0; moved = 1; values = pos 8 ∷ pos 9 ∷ pos 0 ∷ pos 0 ∷ []; bins = empty_histogram } }
    ensures limited { outcome (job_of_lengths 8 (record { score = CutLength; tail = Low } ∷ record { score = CutLength; tail = High } ∷ [])) first_draws_alone 0
        ≡ record { id = 0; moved = 0; values = pos 9 ∷ pos 9 ∷ pos 0 ∷ pos 0 ∷ []; bins = empty_histogram } }
{}

/// Shows the lines of lengths in the text of a check. The line of the limit is left out if the limit has its default.
pub fn check_text_with_lengths()
    ensures limited { check_text (job_of_lengths 12 []) ≡
        codes "plan-check 1" ++ 10 ∷ codes "units 4 edges 3 districts 2" ++ 10 ∷ codes "population 4 slack 5000 low 1 high 3" ++ 10 ∷
        codes "cut-length 7" ++ 10 ∷ codes "max-length 12" ++ 10 ∷ codes "end" ++ 10 ∷ [] }
    ensures free { check_text (job_of_lengths 1717986918000000 []) ≡
        codes "plan-check 1" ++ 10 ∷ codes "units 4 edges 3 districts 2" ++ 10 ∷ codes "population 4 slack 5000 low 1 high 3" ++ 10 ∷
        codes "cut-length 7" ++ 10 ∷ codes "end" ++ 10 ∷ [] }
{}

/// Shows that the digest of a job has its fifth form exactly if edges have lengths. The limit and the lengths are the
/// last bytes.
pub fn bytes_with_lengths()
    ensures fifth { take 14 (job_bytes (job_of_lengths 258 [])) ≡ codes "district-job 5" }
    ensures behind { drop 218 (job_bytes (job_of_lengths 258 [])) ≡
        codes "length" ++ 0 ∷ 0 ∷ 0 ∷ 0 ∷ 0 ∷ 0 ∷ 1 ∷ 2 ∷ 0 ∷ 0 ∷ 0 ∷ 9 ∷ 0 ∷ 0 ∷ 0 ∷ 9 ∷ 0 ∷ 0 ∷ 0 ∷ 7 ∷ 0 ∷ 0 ∷ 0 ∷ 7 ∷ 0 ∷ 0 ∷ 0 ∷ 5 ∷ 0 ∷ 0 ∷ 0 ∷ 5 ∷ [] }
    ensures without { take 14 (job_bytes (job_of_four path_of_four (record (run_of 5000 1 8 0 1000 []) { max_length = 258 }))) ≡ codes "district-job 1" }
    ensures nothing_behind { drop 218 (job_bytes (job_of_four path_of_four (run_of 5000 1 8 0 1000 []))) ≡ [] }
{}

/// Shows arguments that name the column of lengths. Without it, a limit on length and an ask for length are refused.
pub fn words_with_lengths()
    ensures both { setting_of (run_words (codes "--slack" ∷ codes "5000" ∷ codes "--steps" ∷ codes "8" ∷ codes "--ask" ∷ codes "cut-length:low"
        ∷ codes "--length" ∷ codes "l" ∷ codes "--max-length" ∷ codes "9" ∷ [])) ≡
        Ok (record (run_of 5000 1 8 0 1000 (record { score = CutLength; tail = Low } ∷ [])) { columns = record columns { length = codes "l" }; max_length = 9 }) }
    ensures limit_alone { setting_of (run_words (codes "--ask" ∷ codes "gap:low" ∷ codes "--max-length" ∷ codes "9" ∷ [])) ≡ Err (word.BadValue name.MaxLength) }
    ensures ask_alone { setting_of (run_words (codes "--ask" ∷ codes "gap:low,cut-length:high" ∷ [])) ≡ Err (word.BadValue name.Ask) }
    ensures too_much { setting_of (run_words (codes "--ask" ∷ codes "gap:low" ∷ codes "--length" ∷ codes "l" ∷ codes "--max-length" ∷ codes "1717986918000001" ∷ [])) ≡ Err (word.BadValue name.MaxLength) }
{}

/// Shows lengths as read from a graph, and the faults of missing, invalid and unequal lengths.
pub fn read_lengths()
    ensures numbers { reading length_text (record columns { length = codes "l" }) ≡
        Ok (record (parsed_four path_of_four (Whole (pos 1) ∷ Whole (pos 2) ∷ [])) { counts = record (counts_of_votes (3 ∷ 1 ∷ 1 ∷ 2 ∷ []) (1 ∷ 2 ∷ 2 ∷ 1 ∷ []) 4) { lengths = 9 ∷ 9 ∷ 7 ∷ 7 ∷ 5 ∷ 5 ∷ [] } }) }
    ensures missing { reading path_text (record columns { length = codes "l" }) ≡ Err (MissingLength 0 0) }
    ensures no_number { reading cycle_text (record columns { length = codes "shared_perim" }) ≡ Err (BadLength 0 0) }
    ensures unequal { reading unequal_text (record columns { length = codes "l" }) ≡ Err (UnequalLengths 2 0) }
{}

/// Shows the diagnostics about lengths.
pub fn notes_with_lengths()
    ensures too_long { note columns (bad_plan (plan.TooLong 7 6)) ≡ codes "plan: cut edges of total length 7, more than 6" ++ 10 ∷ [] }
    ensures missing { note (record columns { length = codes "l" }) (bad_graph (MissingLength 3 1)) ≡ codes "graph: neighbour 1 of node 3 has no attribute l" ++ 10 ∷ [] }
    ensures no_number { note (record columns { length = codes "l" }) (bad_graph (BadLength 3 1)) ≡ codes "graph: neighbour 1 of node 3 has no whole number from 0 to 4294967295 in attribute l" ++ 10 ∷ [] }
    ensures unequal { note (record columns { length = codes "l" }) (bad_graph (UnequalLengths 3 1)) ≡ codes "graph: neighbour 1 of node 3 has another number in attribute l than the same edge before" ++ 10 ∷ [] }
{}
