//! Computed examples of pairs of walks, of weights in arguments, texts and digests, and of blind reports.

ghost use Rattle.std.specs.Prelude.{◌≡◌, [], ◌∷◌, ◌++◌, codes, drop, take, Some, None, Err, true, pos};
ghost use Rattle.audit_model.specs.declared.fault.Name.TheVariants as name;
ghost use Rattle.audit_model.specs.declared.fault.WordFault.TheVariants as word;
ghost use Rattle.audit_model.specs.declared.setting.Score.TheVariants.{CutLength, Gap};
ghost use Rattle.audit_model.specs.declared.setting.Tail.TheVariants.{Low, High};
ghost use Rattle.audit_model.specs.Test.{p_value};
ghost use Rattle.audit_model.specs.Trajectory.{empty_histogram};
ghost use Rattle.audit_statement.specs.Checkpoint.{job_bytes};
ghost use Rattle.audit_statement.specs.Note.{note, bad_words};
ghost use Rattle.audit_statement.specs.Report.{pair_lines, report};
ghost use Rattle.audit_statement.specs.Words.{setting_of, weight_of};
ghost use Rattle.audit_laws.specs.Jobs.{run_of, cycle_of_four, path_of_four, job_of_four, job_of_lengths};
ghost use Rattle.audit_laws.specs.Lines.{run_words};
ghost use Rattle.audit_laws.specs.Texts.{columns};

/// Shows the lines of the pairs of three walks: the first two are a pair, and the third is in none. Their shared start
/// plan counts once, and the bound is the count by the number of plans of one walk, rounded up.
pub fn lines_of_pairs()
    ensures { pair_lines true (job_of_four cycle_of_four (run_of 5000 3 8 0 1000 (record { score = Gap; tail = Low } ∷ record { score = Gap; tail = High } ∷ [])))
        (record { id = 0; moved = 3; values = pos 4 ∷ pos 8 ∷ pos 0 ∷ pos 0 ∷ []; bins = empty_histogram }
        ∷ record { id = 1; moved = 5; values = pos 2 ∷ pos 9 ∷ pos 0 ∷ pos 0 ∷ []; bins = empty_histogram }
        ∷ record { id = 2; moved = 1; values = pos 1 ∷ pos 1 ∷ pos 0 ∷ pos 0 ∷ []; bins = empty_histogram } ∷ []) ≡
        codes "pair 0 1 gap low start -1/26 count 5 of 17 bound 0.555555556" ++ 10 ∷
        codes "pair 0 1 gap high start -1/26 count 16 of 17 bound 1.777777778" ++ 10 ∷ [] }
{}

/// Shows that a bound is not below the fraction: 10 of 100,001 is a little less than 0.0001.
pub fn bound_of_a_pair()
    ensures { p_value 10 100001 ≡ 100000 }
{}

/// Shows a blind report: no ask, no line of a pair, and no length of the start plan's cut edges.
pub fn blind_report_with_a_weight()
    ensures { report (record (job_of_lengths 12 (record { score = CutLength; tail = Low } ∷ [])) {
      setting = record (run_of 5000 1 8 0 1000 (record { score = CutLength; tail = Low } ∷ []))
          { columns = record columns { length = codes "l" }; max_length = 12; cut_weight = 133; pairs = true; blind = true };
    })
        (record { id = 0; moved = 3; values = pos 8 ∷ pos 0 ∷ pos 0 ∷ pos 0 ∷ []; bins = empty_histogram } ∷ []) [] None ≡
        codes "walk-pilot 1" ++ 10 ∷ codes "key 0000000000000000000000000000000000000000000000000000000000000000" ++ 10 ∷
        codes "units 4 edges 3 districts 2" ++ 10 ∷ codes "population 4 slack 5000 low 1 high 3" ++ 10 ∷ codes "max-length 12" ++ 10 ∷
        codes "cut-weight 33.25 of 64 pieces 9" ++ 10 ∷ codes "walks 1 steps 8 ends 0 hub-steps 1000" ++ 10 ∷
        codes "walk 0 moved 3" ++ 10 ∷ codes "end" ++ 10 ∷ [] }
{}

/// Shows texts that spell a weight, in quarters, and texts that spell none.
pub fn spelled_weights()
    ensures least { weight_of (codes "1") ≡ Some 4 }
    ensures quarter { weight_of (codes "33.25") ≡ Some 133 }
    ensures half { weight_of (codes "33.5") ≡ Some 134 }
    ensures greatest { weight_of (codes "64") ≡ Some 256 }
    ensures too_great { weight_of (codes "64.25") ≡ None }
    ensures too_small { weight_of (codes "0.75") ≡ None }
    ensures zero { weight_of (codes "33.0") ≡ None }
    ensures zero_behind { weight_of (codes "33.50") ≡ None }
    ensures zero_in_front { weight_of (codes "033") ≡ None }
    ensures no_digits { weight_of [] ≡ None }
{}

/// Shows that the digest of a job has its sixth form exactly if cut edges have a weight. The weight is the last bytes.
pub fn bytes_with_a_weight()
    ensures sixth { take 14 (job_bytes (job_of_four path_of_four (record (run_of 5000 1 8 0 1000 []) { cut_weight = 133 }))) ≡ codes "district-job 6" }
    ensures behind { drop 218 (job_bytes (job_of_four path_of_four (record (run_of 5000 1 8 0 1000 []) { cut_weight = 133 }))) ≡ 0 ∷ 0 ∷ 0 ∷ 133 ∷ [] }
    ensures lengths { take 14 (job_bytes (job_of_lengths 258 [])) ≡ codes "district-job 5" }
{}

/// Shows arguments that ask for pairs of fewer than two walks, and for a blind report of a run that saves.
pub fn words_of_pairs()
    ensures one_walk { setting_of (run_words (codes "--ask" ∷ codes "gap:low" ∷ codes "--pairs" ∷ codes "yes" ∷ [])) ≡ Err word.PairsNeedTwoWalks }
    ensures no_answer { setting_of (run_words (codes "--ask" ∷ codes "gap:low" ∷ codes "--pairs" ∷ codes "yes" ∷ codes "--blind" ∷ codes "1" ∷ [])) ≡ Err (word.BadValue name.Blind) }
    ensures saved { setting_of (run_words (codes "--ask" ∷ codes "gap:low" ∷ codes "--blind" ∷ codes "yes" ∷ codes "--save" ∷ codes "1" ∷ [])) ≡ Err (word.BadValue name.Blind) }
    ensures weight { setting_of (run_words (codes "--ask" ∷ codes "gap:low" ∷ codes "--cut-weight" ∷ codes "64.25" ∷ [])) ≡ Err (word.BadValue name.CutWeight) }
    ensures text { note columns (bad_words word.PairsNeedTwoWalks) ≡ codes "words: pairs need two walks" ++ 10 ∷ [] }
{}
