//! Computed examples of arguments that name a group or request the origin, of groups read from graphs, and of origins.

ghost use Rattle.std.specs.Prelude.{◌≡◌, [], ◌∷◌, ◌++◌, codes, replicate, Some, None, Ok, Err, pos, true};
ghost use Rattle.sha2.specs.Sha256.{sha256};
ghost use Rattle.audit_model.specs.declared.fault.Column.TheVariants as column;
ghost use Rattle.audit_model.specs.declared.fault.GraphFault.TheVariants.{BadNumber, Missing};
ghost use Rattle.audit_model.specs.declared.fault.Name.TheVariants as name;
ghost use Rattle.audit_model.specs.declared.fault.PlanFault.TheVariants as plan;
ghost use Rattle.audit_model.specs.declared.fault.WordFault.TheVariants as word;
ghost use Rattle.audit_model.specs.declared.setting.Label.TheVariants.{Whole};
ghost use Rattle.audit_model.specs.declared.setting.Score.TheVariants.{Gap};
ghost use Rattle.audit_model.specs.declared.setting.Tail.TheVariants.{Low};
ghost use Rattle.audit_statement.specs.Accepted.{judged};
ghost use Rattle.audit_statement.specs.Jobs.{jobs_reading};
ghost use Rattle.audit_statement.specs.Note.{note, bad_graph, bad_plan};
ghost use Rattle.audit_statement.specs.Origin.{origin_of};
ghost use Rattle.audit_statement.specs.Reading.{reading};
ghost use Rattle.audit_statement.specs.Report.{check_text, report};
ghost use Rattle.audit_statement.specs.Words.{setting_of};
ghost use Rattle.audit_laws.specs.Jobs.{run_of, path_of_four, job_of_four, observed_job};
ghost use Rattle.audit_laws.specs.Lines.{run_words};
ghost use Rattle.audit_laws.specs.Texts.{columns, path_text, path_and_plans, parsed_four, region_text};

/// Shows arguments that set limits, name a group or request the origin. A limit is refused if the column to which it
/// applies is not named.
pub fn words_of_limits()
    ensures all { setting_of (run_words (codes "--slack" ∷ codes "5000" ∷ codes "--steps" ∷ codes "8" ∷ codes "--ask" ∷ codes "gap:low"
        ∷ codes "--region" ∷ codes "r" ∷ codes "--max-splits" ∷ codes "12" ∷ codes "--max-split-regions" ∷ codes "9"
        ∷ codes "--group" ∷ codes "g" ∷ codes "--group-of" ∷ codes "v" ∷ codes "--group-districts" ∷ codes "2" ∷ codes "--source" ∷ codes "yes" ∷ [])) ≡
        Ok (record (run_of 5000 1 8 0 1000 (record { score = Gap; tail = Low } ∷ [])) {
          columns = record columns { group = codes "g"; whole = codes "v" };
          region = codes "r";
          max_splits = 12;
          max_split_regions = 9;
          group_districts = 2;
          source = true;
        }) }
    ensures of_all { setting_of (run_words (codes "--slack" ∷ codes "5000" ∷ codes "--steps" ∷ codes "8" ∷ codes "--ask" ∷ codes "gap:low" ∷ codes "--group" ∷ codes "g" ∷ [])) ≡
        Ok (record (run_of 5000 1 8 0 1000 (record { score = Gap; tail = Low } ∷ [])) { columns = record columns { group = codes "g"; whole = codes "pop" } }) }
    ensures splits_alone { setting_of (run_words (codes "--ask" ∷ codes "gap:low" ∷ codes "--max-splits" ∷ codes "12" ∷ [])) ≡ Err (word.BadValue name.MaxSplits) }
    ensures regions_alone { setting_of (run_words (codes "--ask" ∷ codes "gap:low" ∷ codes "--max-split-regions" ∷ codes "9" ∷ [])) ≡ Err (word.BadValue name.MaxSplitRegions) }
    ensures whole_alone { setting_of (run_words (codes "--ask" ∷ codes "gap:low" ∷ codes "--group-of" ∷ codes "v" ∷ [])) ≡ Err (word.BadValue name.GroupOf) }
    ensures districts_alone { setting_of (run_words (codes "--ask" ∷ codes "gap:low" ∷ codes "--group-districts" ∷ codes "2" ∷ [])) ≡ Err (word.BadValue name.GroupDistricts) }
    ensures too_many { setting_of (run_words (codes "--ask" ∷ codes "gap:low" ∷ codes "--group" ∷ codes "g" ∷ codes "--group-districts" ∷ codes "201" ∷ [])) ≡ Err (word.BadValue name.GroupDistricts) }
    ensures no_answer { setting_of (run_words (codes "--ask" ∷ codes "gap:low" ∷ codes "--source" ∷ codes "1" ∷ [])) ≡ Err (word.BadValue name.Source) }
    ensures made { setting_of (codes "make" ∷ codes "--size" ∷ codes "3" ∷ codes "--source" ∷ codes "yes" ∷ []) ≡ Err (word.UnknownName (codes "--source")) }
{}

/// Shows a group read from a graph, and the refusals of units without a column or without a number. The group exceeds
/// its base population in some units.
pub fn read_groups()
    ensures group { reading path_text (record columns { group = codes "a"; whole = codes "pop" }) ≡
        Ok (record (parsed_four path_of_four (Whole (pos 1) ∷ Whole (pos 2) ∷ [])) { group = record { members = 3 ∷ 1 ∷ 1 ∷ 2 ∷ []; whole = 1 ∷ 1 ∷ 1 ∷ 1 ∷ [] } }) }
    ensures missing { reading path_text (record columns { group = codes "a"; whole = codes "v" }) ≡ Err (Missing 0 column.Whole) }
    ensures no_number { reading region_text (record { population = codes "id"; first = codes "id"; second = codes "id"; district = codes "r"; group = codes "s"; whole = codes "id"; frozen = []; length = [] }) ≡
        Err (BadNumber 0 column.Group) }
{}

/// Shows the diagnostics about groups and limits.
pub fn notes_of_limits()
    ensures missing { note (record columns { group = codes "g"; whole = codes "v" }) (bad_graph (Missing 3 column.Group)) ≡ codes "graph: node 3 has no column g" ++ 10 ∷ [] }
    ensures no_whole { note (record columns { group = codes "g"; whole = codes "v" }) (bad_graph (Missing 3 column.Whole)) ≡ codes "graph: node 3 has no column v" ++ 10 ∷ [] }
    ensures splits { note columns (bad_plan (plan.TooManySplits 13 12)) ≡ codes "plan: 13 splits of regions, more than 12" ++ 10 ∷ [] }
    ensures regions { note columns (bad_plan (plan.TooManySplitRegions 14 9)) ≡ codes "plan: 14 regions lie in more than one district, more than 9" ++ 10 ∷ [] }
    ensures group { note columns (bad_plan (plan.TooFewMajorities 1 2 5000)) ≡ codes "plan: the group has a majority in 1 districts, fewer than 2" ++ 10 ∷ [] }
{}

/// Shows that bytes have an origin if the setting requests it.
pub fn small_origins()
    ensures no_origin { origin_of (run_of 5000 1 8 0 1000 []) (codes "{}") ≡ None }
    ensures observed { origin_of (record (run_of 5000 1 8 0 1000 []) { source = true }) (codes "{}") ≡ Some (record { sha256 = sha256 (codes "{}"); bytes = 2 }) }
{}

/// Shows the job that is made from bytes, with its origin if the setting requests it. Each of several plans has the
/// origin of the whole input.
pub fn jobs_with_origins()
    ensures no_origin { judged (record (run_of 5000 1 8 0 1000 []) { columns = columns }) path_text ≡ Ok (job_of_four path_of_four (record (run_of 5000 1 8 0 1000 []) { columns = columns })) }
    ensures observed { judged (record (run_of 5000 1 8 0 1000 []) { columns = columns; source = true }) path_text ≡
        Ok (record (job_of_four path_of_four (record (run_of 5000 1 8 0 1000 []) { columns = columns; source = true })) { origin = Some (record { sha256 = sha256 path_text; bytes = 274 }) }) }
    ensures several { jobs_reading (record (run_of 5000 1 8 0 1000 []) { columns = columns; source = true }) path_and_plans ≡
        Ok ((codes "d", record (job_of_four path_of_four (record (run_of 5000 1 8 0 1000 []) { columns = columns; source = true })) { origin = Some (record { sha256 = sha256 path_and_plans; bytes = 295 }) })
        ∷ (codes "p", record (job_of_four path_of_four (record (run_of 5000 1 8 0 1000 []) { columns = columns; source = true })) { start = 0 ∷ 0 ∷ 0 ∷ 1 ∷ []; origin = Some (record { sha256 = sha256 path_and_plans; bytes = 295 }) }) ∷ []) }
{}

/// Shows the lines of the origin below the first line. The names of the columns are JSON strings.
pub fn check_text_with_origin()
    ensures plain { check_text (observed_job columns []) ≡
        codes "plan-check 1" ++ 10 ∷ codes "source sha256 abababababababababababababababababababababababababababababababab bytes 7" ++ 10 ∷
        codes "columns \"pop\" \"a\" \"b\" \"d\"" ++ 10 ∷
        codes "units 2 edges 1 districts 2" ++ 10 ∷ codes "population 2 slack 5000 low 1 high 1" ++ 10 ∷ codes "end" ++ 10 ∷ [] }
    ensures quoted { check_text (observed_job (record columns { population = codes "p\"o" ++ 10 ∷ codes "p"; group = codes "g"; whole = codes "v" }) (codes "r")) ≡
        codes "plan-check 1" ++ 10 ∷ codes "source sha256 abababababababababababababababababababababababababababababababab bytes 7" ++ 10 ∷
        codes "columns \"p\\\"o\\np\" \"a\" \"b\" \"d\" region \"r\" group \"g\" of \"v\"" ++ 10 ∷
        codes "units 2 edges 1 districts 2" ++ 10 ∷ codes "population 2 slack 5000 low 1 high 1" ++ 10 ∷ codes "end" ++ 10 ∷ [] }
{}

/// Shows the lines of the origin in a report.
pub fn report_with_origin()
    ensures { report (observed_job columns []) [] [] None ≡
        codes "district-audit 1" ++ 10 ∷ codes "source sha256 abababababababababababababababababababababababababababababababab bytes 7" ++ 10 ∷
        codes "columns \"pop\" \"a\" \"b\" \"d\"" ++ 10 ∷
        codes "key 0000000000000000000000000000000000000000000000000000000000000000" ++ 10 ∷
        codes "units 2 edges 1 districts 2" ++ 10 ∷ codes "population 2 slack 5000 low 1 high 1" ++ 10 ∷
        codes "walks 1 steps 8 ends 0 hub-steps 1000" ++ 10 ∷ codes "end" ++ 10 ∷ [] }
{}
