//! Examples of frozen units and of the share for a group's majority, computed by the definitions.

ghost use Rattle.std.specs.Prelude.{◌≡◌, [], ◌∷◌, ◌++◌, codes, drop, take, true, false, pos, Ok, Err};
ghost use Rattle.audit_model.specs.declared.fault.Column.TheVariants as column;
ghost use Rattle.audit_model.specs.declared.fault.GraphFault.TheVariants.{BadNumber, Missing};
ghost use Rattle.audit_model.specs.declared.fault.Name.TheVariants as name;
ghost use Rattle.audit_model.specs.declared.fault.PlanFault.TheVariants as plan;
ghost use Rattle.audit_model.specs.declared.fault.WordFault.TheVariants as word;
ghost use Rattle.audit_model.specs.declared.setting.Label.TheVariants.{Whole};
ghost use Rattle.audit_model.specs.declared.setting.Score.TheVariants.{Gap, Seats};
ghost use Rattle.audit_model.specs.declared.setting.Tail.TheVariants.{Low};
ghost use Rattle.audit_model.specs.Meets.{keeps_frozen, majorities, meets_rules};
ghost use Rattle.audit_model.specs.Trajectory.{empty_histogram, outcome};
ghost use Rattle.audit_statement.specs.Checkpoint.{job_bytes};
ghost use Rattle.audit_statement.specs.Note.{note, bad_graph, bad_plan};
ghost use Rattle.audit_statement.specs.Reading.{reading};
ghost use Rattle.audit_statement.specs.Report.{check_text};
ghost use Rattle.audit_statement.specs.Words.{setting_of};
ghost use Rattle.audit_laws.specs.Jobs.{run_of, no_rules, group_of_four, path_of_four, job_of_four, limited_job, first_draws_alone};
ghost use Rattle.audit_laws.specs.Lines.{run_words};
ghost use Rattle.audit_laws.specs.Texts.{columns, path_text, parsed_four, region_text};

/// Shows that a plan keeps frozen units if it agrees with the start plan on each of them.
pub fn small_frozen()
    ensures kept { keeps_frozen (1 ∷ 0 ∷ 0 ∷ 1 ∷ []) (0 ∷ 0 ∷ 1 ∷ 1 ∷ []) (0 ∷ 1 ∷ 1 ∷ 1 ∷ []) ≡ true }
    ensures moved { keeps_frozen (1 ∷ 0 ∷ 0 ∷ 1 ∷ []) (0 ∷ 0 ∷ 1 ∷ 1 ∷ []) (1 ∷ 0 ∷ 1 ∷ 1 ∷ []) ≡ false }
    ensures none { keeps_frozen [] [] (1 ∷ 0 ∷ 1 ∷ 1 ∷ []) ≡ true }
    ensures rules { meets_rules (record no_rules { frozen = 0 ∷ 0 ∷ 0 ∷ 1 ∷ []; home = 0 ∷ 0 ∷ 1 ∷ 1 ∷ [] }) 3 (0 ∷ 0 ∷ 1 ∷ 0 ∷ []) ≡ false }
{}

/// Shows that a majority is strictly more than the share: three of four are more than 7,499 in
/// 10,000, and not more than 7,500.
pub fn small_shares()
    ensures below { majorities 7499 group_of_four (0 ∷ 0 ∷ 1 ∷ 1 ∷ []) ≡ 1 }
    ensures same { majorities 7500 group_of_four (0 ∷ 0 ∷ 1 ∷ 1 ∷ []) ≡ 0 }
    ensures both { majorities 4999 group_of_four (0 ∷ 0 ∷ 1 ∷ 1 ∷ []) ≡ 2 }
    ensures any { majorities 0 group_of_four (0 ∷ 0 ∷ 1 ∷ 1 ∷ []) ≡ 2 }
    ensures none { majorities 10000 group_of_four (0 ∷ 0 ∷ 1 ∷ 1 ∷ []) ≡ 0 }
{}

/// Shows that a trajectory makes no move if all units are frozen.
pub fn walks_with_frozen()
    ensures { outcome (record (job_of_four path_of_four (run_of 5000 1 8 0 1000 (record { score = Seats; tail = Low } ∷ []))) { frozen = 1 ∷ 1 ∷ 1 ∷ 1 ∷ [] }) first_draws_alone 0
        ≡ record { id = 0; moved = 0; values = pos 9 ∷ pos 0 ∷ pos 0 ∷ pos 0 ∷ []; bins = empty_histogram } }
{}

/// Shows the lines of the share and of frozen units in the text of a check, below the line of the
/// group.
pub fn check_text_with_frozen()
    ensures { check_text (record (limited_job 12 9 1) { setting = record (limited_job 12 9 1).setting { group_share = 4999 }; frozen = 0 ∷ 1 ∷ 0 ∷ 1 ∷ [] }) ≡
        codes "plan-check 1" ++ 10 ∷ codes "units 4 edges 3 districts 2" ++ 10 ∷ codes "population 4 slack 5000 low 1 high 3" ++ 10 ∷
        codes "max-split 200 regions 2" ++ 10 ∷ codes "max-splits 12 max-split-regions 9" ++ 10 ∷
        codes "group-districts 1 of 2" ++ 10 ∷ codes "group-share 4999" ++ 10 ∷ codes "frozen 2" ++ 10 ∷ codes "end" ++ 10 ∷ [] }
{}

/// Shows when the digest of a job has its fourth form: if a group's share is not one half, or if
/// there is a column of frozen units.
pub fn bytes_with_frozen()
    ensures frozen { take 14 (job_bytes (record (job_of_four path_of_four (run_of 5000 1 8 0 1000 [])) { frozen = 0 ∷ 1 ∷ 0 ∷ 0 ∷ [] })) ≡ codes "district-job 4" }
    ensures share { take 14 (job_bytes (record (job_of_four path_of_four (record (run_of 5000 1 8 0 1000 []) { group_share = 4000 })) { group = group_of_four })) ≡ codes "district-job 4" }
    ensures no_group { take 14 (job_bytes (job_of_four path_of_four (record (run_of 5000 1 8 0 1000 []) { group_share = 4000 }))) ≡ codes "district-job 1" }
    ensures frozen_behind { drop 218 (job_bytes (record (job_of_four path_of_four (run_of 5000 1 8 0 1000 [])) { frozen = 0 ∷ 1 ∷ 0 ∷ 0 ∷ [] })) ≡
        0 ∷ 6 ∷ 26 ∷ 128 ∷ codes "freeze" ++ 0 ∷ 0 ∷ 0 ∷ 0 ∷ 0 ∷ 0 ∷ 0 ∷ 1 ∷ 0 ∷ 0 ∷ 0 ∷ 0 ∷ 0 ∷ 0 ∷ 0 ∷ 0 ∷ [] }
    ensures share_behind { drop 290 (job_bytes (record (job_of_four path_of_four (record (run_of 5000 1 8 0 1000 []) { group_share = 4000 })) { group = group_of_four })) ≡
        codes "group-share" ++ 0 ∷ 0 ∷ 15 ∷ 160 ∷ [] }
{}

/// Shows arguments that name frozen units and a share. A share without a group is refused.
pub fn words_with_frozen()
    ensures both { setting_of (run_words (codes "--slack" ∷ codes "5000" ∷ codes "--steps" ∷ codes "8" ∷ codes "--ask" ∷ codes "gap:low"
        ∷ codes "--group" ∷ codes "g" ∷ codes "--group-share" ∷ codes "4000" ∷ codes "--freeze" ∷ codes "f" ∷ [])) ≡
        Ok (record (run_of 5000 1 8 0 1000 (record { score = Gap; tail = Low } ∷ [])) { columns = record columns { group = codes "g"; whole = codes "pop"; frozen = codes "f" }; group_share = 4000 }) }
    ensures share_alone { setting_of (run_words (codes "--ask" ∷ codes "gap:low" ∷ codes "--group-share" ∷ codes "4000" ∷ [])) ≡ Err (word.BadValue name.GroupShare) }
    ensures too_much { setting_of (run_words (codes "--ask" ∷ codes "gap:low" ∷ codes "--group" ∷ codes "g" ∷ codes "--group-share" ∷ codes "10001" ∷ [])) ≡ Err (word.BadValue name.GroupShare) }
{}

/// Shows frozen units as read from a column, and the faults of a missing and of an invalid flag.
pub fn read_frozen()
    ensures numbers { reading path_text (record columns { frozen = codes "id" }) ≡
        Ok (record (parsed_four path_of_four (Whole (pos 1) ∷ Whole (pos 2) ∷ [])) { frozen = 0 ∷ 1 ∷ 1 ∷ 1 ∷ [] }) }
    ensures missing { reading path_text (record columns { frozen = codes "v" }) ≡ Err (Missing 0 column.Frozen) }
    ensures no_flag { reading region_text (record { population = codes "id"; first = codes "id"; second = codes "id"; district = codes "r"; group = []; whole = []; frozen = codes "s"; length = [] }) ≡
        Err (BadNumber 0 column.Frozen) }
{}

/// Shows the diagnostics about shares and frozen units.
pub fn notes_with_frozen()
    ensures share { note columns (bad_plan (plan.TooFewMajorities 1 2 4000)) ≡ codes "plan: the group has more than 4000 of 10000 in 1 districts, fewer than 2" ++ 10 ∷ [] }
    ensures no_flag { note (record columns { frozen = codes "f" }) (bad_graph (BadNumber 3 column.Frozen)) ≡ codes "graph: node 3 has no true, false or whole number from 0 to 1000000000 in column f" ++ 10 ∷ [] }
    ensures missing { note (record columns { frozen = codes "f" }) (bad_graph (Missing 3 column.Frozen)) ≡ codes "graph: node 3 has no column f" ++ 10 ∷ [] }
{}
