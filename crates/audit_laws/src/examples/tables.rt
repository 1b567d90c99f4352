//! Computed examples of regions and tables, and of their arguments.

ghost use Rattle.std.specs.Prelude.{◌≡◌, ◌++◌, [], ◌∷◌, codes, pos, true, Ok, Err};
ghost use Rattle.audit_model.specs.declared.fault.Name.TheVariants as name;
ghost use Rattle.audit_model.specs.declared.fault.PlanFault.TheVariants.{Disconnected};
ghost use Rattle.audit_model.specs.declared.fault.RegionFault.TheVariants as region;
ghost use Rattle.audit_model.specs.declared.fault.TableFault.TheVariants as table;
ghost use Rattle.audit_model.specs.declared.fault.WordFault.TheVariants as word;
ghost use Rattle.audit_model.specs.declared.setting.Label.TheVariants.{Whole, Word};
ghost use Rattle.audit_model.specs.declared.setting.Score.TheVariants.{Seats, Gap};
ghost use Rattle.audit_model.specs.declared.setting.Tail.TheVariants.{Low};
ghost use Rattle.audit_model.specs.JobOf.{job_with};
ghost use Rattle.audit_model.specs.Several.{named_jobs};
ghost use Rattle.audit_model.specs.Trajectory.{empty_histogram, outcome};
ghost use Rattle.audit_statement.specs.Regions.{id_reading, region_reading};
ghost use Rattle.audit_statement.specs.Table.{graph_part, table_part, table_reading};
ghost use Rattle.audit_statement.specs.Words.{setting_of};
ghost use Rattle.audit_laws.specs.Jobs.{run_of, path_of_four, job_of_four, first_draws_alone};
ghost use Rattle.audit_laws.specs.Lines.{run_words};
ghost use Rattle.audit_laws.specs.Texts.{columns, path_text, region_text, short_region_text, four_ids};

/// Shows the regions of a path, the refusals of units without a region or without a valid label, and the ids of the
/// units.
pub fn small_regions()
    ensures read { region_reading region_text (codes "r") ≡ Ok (0 ∷ 1 ∷ 1 ∷ 0 ∷ []) }
    ensures missing { region_reading short_region_text (codes "r") ≡ Err (region.Missing 3) }
    ensures no_label { region_reading region_text (codes "s") ≡ Err (region.BadLabel 0) }
    ensures ids { id_reading path_text ≡ four_ids }
{}

/// Shows the two parts of an input: graph and table.
pub fn small_parts()
    ensures graph { graph_part (codes "ab" ++ 10 ∷ codes "c" ++ 10 ∷ []) ≡ codes "ab" }
    ensures table { table_part (codes "ab" ++ 10 ∷ codes "c" ++ 10 ∷ []) ≡ codes "c" ++ 10 ∷ [] }
    ensures no_table { table_part (codes "ab") ≡ [] }
    ensures no_graph { graph_part (10 ∷ codes "ab") ≡ [] }
{}

/// Shows a table of one plan with its records in any order, and refused tables.
pub fn small_tables()
    ensures plan { table_reading (codes "id,p" ++ 10 ∷ codes "0,A" ++ 10 ∷ codes "1,A" ++ 10 ∷ codes "2,A" ++ 10 ∷ codes "3,B" ++ 10 ∷ []) four_ids ≡
        Ok (record { name = codes "p"; start = 0 ∷ 0 ∷ 0 ∷ 1 ∷ []; labels = Word (codes "A") ∷ Word (codes "B") ∷ [] } ∷ []) }
    ensures turned { table_reading (codes "id,p" ++ 10 ∷ codes "3,\"B\"" ++ 13 ∷ codes "2,A" ++ 10 ∷ 10 ∷ codes "0,A" ++ 10 ∷ codes "1,A") four_ids ≡
        Ok (record { name = codes "p"; start = 0 ∷ 0 ∷ 0 ∷ 1 ∷ []; labels = Word (codes "A") ∷ Word (codes "B") ∷ [] } ∷ []) }
    ensures missing { table_reading (codes "id,p" ++ 10 ∷ codes "0,A" ++ 10 ∷ codes "1,A" ++ 10 ∷ codes "2,A" ++ 10 ∷ []) four_ids ≡ Err (table.MissingUnit 3) }
    ensures twice { table_reading (codes "id,p" ++ 10 ∷ codes "0,A" ++ 10 ∷ codes "1,A" ++ 10 ∷ codes "2,A" ++ 10 ∷ codes "2,A" ++ 10 ∷ codes "3,B" ++ 10 ∷ []) four_ids ≡ Err (table.Twice 4) }
    ensures empty { table_reading [] four_ids ≡ Err table.NoHeader }
    ensures short_row { table_reading (codes "id,p" ++ 10 ∷ codes "0" ++ 10 ∷ []) four_ids ≡ Err (table.Unreadable 1) }
    ensures no_text { table_reading (codes "id,p" ++ 10 ∷ codes "0," ++ 255 ∷ 10 ∷ []) four_ids ≡ Err (table.Unreadable 1) }
    ensures no_plan { table_reading (codes "id" ++ 10 ∷ []) four_ids ≡ Err table.NoHeader }
    ensures no_name { table_reading (codes "id,p,q" ++ 127 ∷ 10 ∷ []) four_ids ≡ Err (table.BadName 1) }
    ensures unknown { table_reading (codes "id,p" ++ 10 ∷ codes "00,A" ++ 10 ∷ []) four_ids ≡ Err (table.UnknownId 1) }
    ensures shared { table_reading (codes "id,p" ++ 10 ∷ []) (Whole (pos 1) ∷ Word (codes "1") ∷ []) ≡ Err (table.SharedId 0 1) }
    ensures one_label { table_reading (codes "id,p" ++ 10 ∷ codes "0,A" ++ 10 ∷ codes "1,A" ++ 10 ∷ codes "2,A" ++ 10 ∷ codes "3,A" ++ 10 ∷ []) four_ids ≡ Err (table.DistrictCount 0 1) }
{}

/// Shows a plan of a table as a job, and a refused plan.
pub fn jobs_of_plans()
    ensures walked { outcome (record (job_of_four path_of_four (run_of 5000 1 8 0 1000 (record { score = Seats; tail = Low } ∷ []))) { start = 0 ∷ 0 ∷ 0 ∷ 1 ∷ [] }) first_draws_alone 0
        ≡ record { id = 0; moved = 2; values = pos 9 ∷ pos 0 ∷ pos 0 ∷ pos 0 ∷ []; bins = empty_histogram } }
    ensures refused { job_with (job_of_four path_of_four (run_of 5000 1 8 0 1000 [])) (0 ∷ 1 ∷ 0 ∷ 0 ∷ []) (Word (codes "A") ∷ Word (codes "B") ∷ []) ≡ Err (Disconnected 0 0 2) }
    ensures named { named_jobs (job_of_four path_of_four (run_of 5000 1 8 0 1000 [])) (record { name = codes "p"; start = 0 ∷ 1 ∷ 0 ∷ 0 ∷ []; labels = Word (codes "A") ∷ Word (codes "B") ∷ [] } ∷ []) ≡
        Err (codes "p", Disconnected 0 0 2) }
{}

/// Shows refused values of options that plain runs do not have.
pub fn more_refused_words()
    ensures many_cut { setting_of (run_words (codes "--ask" ∷ codes "gap:low" ∷ codes "--max-cut" ∷ codes "400001" ∷ [])) ≡ Err (word.BadValue name.MaxCut) }
    ensures zero_in_front { setting_of (run_words (codes "--ask" ∷ codes "gap:low" ∷ codes "--max-cut" ∷ codes "02" ∷ [])) ≡ Err (word.BadValue name.MaxCut) }
    ensures no_answer { setting_of (run_words (codes "--ask" ∷ codes "gap:low" ∷ codes "--shift" ∷ codes "1" ∷ [])) ≡ Err (word.BadValue name.Shift) }
{}

/// Shows accepted arguments with options that plain runs do not have.
pub fn more_accepted_words()
    ensures { setting_of (run_words (codes "--slack" ∷ codes "5000" ∷ codes "--steps" ∷ codes "7" ∷ codes "--ask" ∷ codes "gap:low" ∷ codes "--ends" ∷ codes "3"
        ∷ codes "--max-cut" ∷ codes "2" ∷ codes "--shift" ∷ codes "yes" ∷ [])) ≡
        Ok (record (run_of 5000 1 7 3 1000 (record { score = Gap; tail = Low } ∷ [])) { columns = columns; max_cut = 2; shift = true }) }
{}

/// Shows arguments that name regions. A limit without regions is refused. The empty text names no column.
pub fn words_of_regions()
    ensures whole { setting_of (run_words (codes "--slack" ∷ codes "5000" ∷ codes "--steps" ∷ codes "8" ∷ codes "--ask" ∷ codes "gap:low"
        ∷ codes "--max-split" ∷ codes "1" ∷ codes "--region" ∷ codes "r" ∷ [])) ≡
        Ok (record (run_of 5000 1 8 0 1000 (record { score = Gap; tail = Low } ∷ [])) { columns = columns; region = codes "r"; max_split = 1 }) }
    ensures alone { setting_of (run_words (codes "--ask" ∷ codes "gap:low" ∷ codes "--max-split" ∷ codes "1" ∷ [])) ≡ Err (word.BadValue name.MaxSplit) }
    ensures of_none { setting_of (run_words (codes "--ask" ∷ codes "gap:low" ∷ codes "--region" ∷ [] ∷ codes "--max-split" ∷ codes "199" ∷ [])) ≡ Err (word.BadValue name.MaxSplit) }
    ensures none_at_all { setting_of (run_words (codes "--ask" ∷ codes "gap:low" ∷ codes "--region" ∷ codes "r" ∷ codes "--max-split" ∷ codes "0" ∷ [])) ≡ Err (word.BadValue name.MaxSplit) }
{}
