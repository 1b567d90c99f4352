//! Computed examples of the formats, each the contract of an empty function.

ghost use Rattle.std.specs.Prelude.{◌≡◌, ◌++◌, [], ◌∷◌, codes, length, take, None, Some, true, false, replicate, pos, Err, Ok};
ghost use Rattle.audit_model.specs.declared.fault.CkptFault.TheVariants as ckpt;
ghost use Rattle.audit_model.specs.declared.setting.Score.TheVariants.{Gap};
ghost use Rattle.audit_model.specs.declared.setting.Tail.TheVariants.{Low, High};
ghost use Rattle.audit_laws.specs.Jobs.{run_of, path_of_four, cycle_of_four, job_of_four, job_of_two, found_once};
ghost use Rattle.audit_model.specs.Trajectory.{outcome, empty_histogram, sequence};
ghost use Rattle.audit_statement.specs.Checkpoint.{checkpoint, checkpoint_body, checkpoint_fault};
ghost use Rattle.audit_statement.specs.Slots.{initial_outcomes, outcomes_in, newest, save_place, absent, broken, ours};
ghost use Rattle.audit_statement.specs.Draw.{draw};
ghost use Rattle.audit_model.specs.declared.fault.GraphFault.TheVariants as fault;
ghost use Rattle.audit_model.specs.declared.setting.Label.TheVariants.{Whole, Word};
ghost use Rattle.audit_laws.specs.Texts.{columns, path_text, other_path_text, cycle_text, parsed_four};
ghost use Rattle.audit_statement.specs.Reading.{reading};
ghost use Rattle.audit_statement.specs.Grid.{neighbours_json};
ghost use Rattle.audit_statement.specs.Note.{note, bad_words, bad_graph, bad_plan, bad_plan_named, bad_regions, bad_table, stopped, damaged};
ghost use Rattle.audit_model.specs.declared.fault.Column.TheVariants as column;
ghost use Rattle.audit_model.specs.declared.fault.Part.TheVariants as part;
ghost use Rattle.audit_model.specs.declared.fault.PlanFault.TheVariants as plan;
ghost use Rattle.audit_model.specs.declared.fault.RegionFault.TheVariants as region;
ghost use Rattle.audit_model.specs.declared.fault.TableFault.TheVariants as table;
ghost use Rattle.audit_statement.specs.Report.{report, check_text};
ghost use Rattle.audit_statement.specs.Words.{is_good, pairs, setting_of};
ghost use Rattle.audit_model.specs.declared.setting.Command.TheVariants.{Run};
ghost use Rattle.audit_laws.specs.Lines.{run_words, small_budget};
ghost use Rattle.audit_model.specs.declared.fault.WordFault.TheVariants as word;
ghost use Rattle.audit_model.specs.declared.fault.Name.TheVariants as name;

/// Shows the first draws of stream 0 under the all-zero key.
pub fn first_draws()
    ensures zeroth { draw (replicate 32 0) 0 0 ≡ 0x903df1a0ade0b876 }
    ensures first { draw (replicate 32 0) 0 1 ≡ 0x28bd8653e56a5d40 }
    ensures second { draw (replicate 32 0) 0 2 ≡ 0x1aed8da0b819d2bd }
    ensures third { draw (replicate 32 0) 0 3 ≡ 0xc70d778bccef36a8 }
    ensures fourth { draw (replicate 32 0) 0 4 ≡ 0x8d4857517c5941da }
    ensures fifth { draw (replicate 32 0) 0 5 ≡ 0x374ad8b83fe02477 }
    ensures sixth { draw (replicate 32 0) 0 6 ≡ 0x1ca11815f4b8436a }
    ensures seventh { draw (replicate 32 0) 0 7 ≡ 0x8665eeb269b687c3 }
{}

/// Shows the text of a check of the path of four units.
pub fn check_text_of_a_path()
    ensures { check_text (job_of_four path_of_four (run_of 5000 1 8 0 1000 [])) ≡
        codes "plan-check 1" ++ 10 ∷ codes "units 4 edges 3 districts 2" ++ 10 ∷ codes "population 4 slack 5000 low 1 high 3" ++ 10 ∷ codes "end" ++ 10 ∷ [] }
{}

/// Shows the report on the cycle of four units.
pub fn report_on_a_cycle()
    ensures { report (job_of_four cycle_of_four (run_of 5000 1 8 0 1000 (record { score = Gap; tail = Low } ∷ record { score = Gap; tail = High } ∷ [])))
        (record { id = 0; moved = 3; values = pos 4 ∷ pos 8 ∷ pos 0 ∷ pos 0 ∷ []; bins = empty_histogram } ∷ []) [] None ≡
        codes "district-audit 1" ++ 10 ∷ codes "key 0000000000000000000000000000000000000000000000000000000000000000" ++ 10 ∷
        codes "units 4 edges 4 districts 2" ++ 10 ∷ codes "population 4 slack 5000 low 1 high 3" ++ 10 ∷
        codes "walks 1 steps 8 ends 0 hub-steps 1000" ++ 10 ∷
        codes "walk 0 moved 3 gap low start -1/26 count 4 of 9 bound 0.942809042" ++ 10 ∷
        codes "walk 0 moved 3 gap high start -1/26 count 8 of 9 bound 1.333333334" ++ 10 ∷
        codes "end" ++ 10 ∷ [] }
{}

/// Shows refused texts of graphs.
pub fn refused_graphs()
    ensures empty { reading [] columns ≡ Err fault.NotJson }
    ensures no_nodes { reading (codes "{\"nodes\":[],\"adjacency\":[]}") columns ≡ Err (fault.DistrictCount 0) }
    ensures directed { reading (codes "{\"directed\":true,\"nodes\":[],\"adjacency\":[]}") columns ≡ Err fault.Directed }
{}

/// Shows that two texts of a path give the same graph. In the second text, edges are listed by only one of their units
/// or twice, and a unit lists itself.
pub fn read_paths()
    ensures path { reading path_text columns ≡ Ok (parsed_four path_of_four (Whole (pos 1) ∷ Whole (pos 2) ∷ [])) }
    ensures other { reading other_path_text columns ≡ Ok (parsed_four path_of_four (Whole (pos 1) ∷ Whole (pos 2) ∷ [])) }
{}

/// Shows the graph read from the text of a cycle whose ids and labels are texts.
pub fn read_cycle()
    ensures { reading cycle_text columns ≡ Ok (parsed_four cycle_of_four (Word (codes "01") ∷ Word (codes "02") ∷ [])) }
{}

/// Shows refused arguments.
pub fn refused_words()
    ensures none { setting_of [] ≡ Err word.NoCommand }
    ensures no_value { setting_of (codes "check" ∷ codes "--pop" ∷ []) ≡ Err (word.NoValue name.Pop) }
    ensures twice { setting_of (codes "check" ∷ codes "--pop" ∷ codes "a" ∷ codes "--pop" ∷ codes "b" ∷ []) ≡ Err (word.Twice name.Pop) }
    ensures unknown { setting_of (codes "run" ∷ codes "--size" ∷ codes "1" ∷ []) ≡ Err (word.UnknownName (codes "--size")) }
    ensures missing { setting_of (codes "check" ∷ codes "--pop" ∷ codes "p" ∷ codes "--first" ∷ codes "a" ∷ codes "--second" ∷ codes "b" ∷ []) ≡ Err (word.MissingName name.District) }
    ensures leading_zero { setting_of (run_words (codes "--ask" ∷ codes "seats:low" ∷ codes "--steps" ∷ codes "08" ∷ [])) ≡ Err (word.BadValue name.Steps) }
    ensures no_trajectories { setting_of (run_words (codes "--ask" ∷ codes "seats:low" ∷ codes "--walks" ∷ codes "0" ∷ [])) ≡ Err (word.BadValue name.Ends) }
    ensures ends_before_ask { setting_of (run_words (codes "--ask" ∷ codes "seats" ∷ codes "--walks" ∷ codes "0" ∷ [])) ≡ Err (word.BadValue name.Ends) }
    ensures same_ask { setting_of (run_words (codes "--ask" ∷ codes "gap:low,gap:low" ∷ [])) ≡ Err (word.BadValue name.Ask) }
    ensures many_workers { setting_of (run_words (codes "--ask" ∷ codes "seats:low" ∷ codes "--workers" ∷ codes "33" ∷ [])) ≡ Err (word.BadValue name.Workers) }
    ensures short_key { is_good Run (pairs (codes "--key" ∷ replicate 63 48 ∷ [])) name.Key ≡ false }
{}

/// Shows accepted arguments of a run.
pub fn accepted_words()
    ensures { setting_of (run_words (codes "--slack" ∷ codes "5000" ∷ codes "--steps" ∷ codes "8" ∷ codes "--ask" ∷ codes "gap:low,gap:high" ∷ [])) ≡
        Ok (record (run_of 5000 1 8 0 1000 (record { score = Gap; tail = Low } ∷ record { score = Gap; tail = High } ∷ [])) { columns = columns }) }
{}

/// Shows that a budget that is too small is refused if nothing is saved. If the value of `--save` is no number, that
/// value is refused instead of the budget.
pub fn small_budgets()
    ensures by_default { setting_of (small_budget []) ≡ Err (word.BadValue name.Budget) }
    ensures unsaved { setting_of (small_budget (codes "--save" ∷ codes "0" ∷ [])) ≡ Err (word.BadValue name.Budget) }
    ensures saved { setting_of (small_budget (codes "--save" ∷ codes "2" ∷ codes "--resume" ∷ codes "yes" ∷ [])) ≡
        Ok (record (run_of 500 12 1000 0 1000 (record { score = Gap; tail = Low } ∷ [])) { columns = columns; budget = 5; save_every = 2; resume = true }) }
    ensures unread_save { setting_of (small_budget (codes "--save" ∷ codes "x" ∷ [])) ≡ Err (word.BadValue name.Save) }
{}

/// Shows a checkpoint with one outcome, in both versions, and bytes that are no checkpoint.
pub fn small_checkpoints()
    ensures length { length (checkpoint 2 (replicate 32 0) 1 (found_once ∷ [])) ≡ 164 }
    ensures old_length { length (checkpoint 1 (replicate 32 0) 1 (found_once ∷ [])) ≡ 128 }
    ensures none { checkpoint_fault (checkpoint 2 (replicate 32 0) 1 (found_once ∷ [])) ≡ None }
    ensures old_none { checkpoint_fault (checkpoint 1 (replicate 32 0) 1 (found_once ∷ [])) ≡ None }
    ensures short { checkpoint_fault (replicate 83 0) ≡ Some (ckpt.TooShort 83) }
    ensures version { checkpoint_fault (checkpoint 3 (replicate 32 0) 1 []) ≡ Some (ckpt.BadVersion 3) }
    ensures generation { checkpoint_fault (checkpoint 2 (replicate 32 0) 3 []) ≡ Some (ckpt.BadGeneration 3) }
    ensures order { checkpoint_fault (checkpoint 2 (replicate 32 0) 1 (found_once ∷ found_once ∷ [])) ≡ Some (ckpt.BadOrder 1) }
    ensures longer { checkpoint_fault (checkpoint 2 (replicate 32 0) 1 (found_once ∷ []) ++ 0 ∷ []) ≡ Some (ckpt.BadCount 1 165) }
{}

/// Shows the outcomes decoded from a checkpoint, in both versions.
pub fn read_checkpoints()
    ensures bins { outcomes_in (checkpoint_body 2 (replicate 32 0) 1 (record found_once { bins = 0 ∷ 1 ∷ 2 ∷ 3 ∷ 4 ∷ 5 ∷ 6 ∷ 7 ∷ 8 ∷ [] } ∷ [])) ≡
        record found_once { bins = 0 ∷ 1 ∷ 2 ∷ 3 ∷ 4 ∷ 5 ∷ 6 ∷ 7 ∷ 8 ∷ [] } ∷ [] }
    ensures old { outcomes_in (checkpoint_body 1 (replicate 32 0) 1 (found_once ∷ [])) ≡ found_once ∷ [] }
{}

/// Shows the outcomes from which a run resumes. Without `--shift` these are all saved outcomes, without their
/// histograms. With `--shift`, walks without a histogram are left out.
pub fn small_initial_outcomes()
    ensures without_histogram { initial_outcomes true (run_of 5000 1 8 1 8 []) (ours 0 (record found_once { bins = 9 ∷ [] } ∷ [])) absent ≡ Some (found_once ∷ []) }
    ensures binned { initial_outcomes true (record (run_of 5000 1 8 1 8 []) { shift = true }) (ours 0 (found_once ∷ record found_once { id = 1 } ∷ [])) absent ≡
        Some (record found_once { id = 1 } ∷ []) }
    ensures fresh { initial_outcomes false (run_of 5000 1 8 1 8 []) (ours 0 (found_once ∷ [])) absent ≡ Some [] }
    ensures torn { initial_outcomes true (run_of 5000 1 8 1 8 []) (broken (ckpt.TooShort 40)) absent ≡ None }
{}

/// Shows diagnostics of several endings.
pub fn small_notes()
    ensures words { note columns (bad_words (word.BadValue name.Workers)) ≡ codes "words: bad value for --workers" ++ 10 ∷ [] }
    ensures graph { note columns (bad_graph (fault.Missing 3 column.Second)) ≡ codes "graph: node 3 has no column b" ++ 10 ∷ [] }
    ensures plan { note columns (bad_plan (plan.OutOfBounds 2 4 3 3)) ≡ codes "plan: district 2 has population 4, outside 3 to 3" ++ 10 ∷ [] }
    ensures parted { note columns (bad_plan (plan.Disconnected 0 0 2)) ≡ codes "plan: district 0 has no path from unit 0 to unit 2" ++ 10 ∷ [] }
    ensures cut { note columns (bad_plan (plan.TooManyCut 3 2)) ≡ codes "plan: 3 cut edges, more than 2" ++ 10 ∷ [] }
    ensures split { note columns (bad_plan (plan.TooManySplit 0 2 1)) ≡ codes "plan: region 0 lies in 2 districts, more than 1" ++ 10 ∷ [] }
    ensures region { note columns (bad_regions (codes "r") (region.Missing 3)) ≡ codes "graph: node 3 has no column r" ++ 10 ∷ [] }
    ensures table { note columns (bad_table (table.Twice 4)) ≡ codes "table: record 4 repeats a unit" ++ 10 ∷ [] }
    ensures named { note columns (bad_plan_named (codes "p") (plan.Disconnected 0 0 2)) ≡ codes "plan p: district 0 has no path from unit 0 to unit 2" ++ 10 ∷ [] }
    ensures stopped { note columns (stopped 5 12) ≡ codes "stopped: 5 of 12 done" ++ 10 ∷ [] }
    ensures slots { note columns (damaged (broken (ckpt.TooShort 40)) absent) ≡ codes "checkpoint: slot 0 too short, slot 1 absent" ++ 10 ∷ [] }
{}

/// Shows the newest of two slots, and the place (slot and generation) of the next checkpoint.
pub fn small_slots()
    ensures none { save_place absent absent ≡ (0, 0) }
    ensures one { save_place (ours 2 []) (broken (ckpt.TooShort 40)) ≡ (1, 0) }
    ensures follows { newest (ours 2 []) (ours 0 []) ≡ Some 1 }
    ensures before { save_place (ours 2 []) (ours 1 []) ≡ (1, 0) }
{}

/// Shows the neighbors of the first unit of a grid.
pub fn first_neighbours_of_a_grid()
    ensures { neighbours_json 1 0 ≡ codes "[{\"id\":1},{\"id\":10}]" }
{}

/// Shows the outcome of trajectory 0 on the cycle, with the draws of its own stream.
pub fn drawn_outcome()
    ensures { outcome (job_of_four cycle_of_four (run_of 5000 1 8 0 1000 (record { score = Gap; tail = Low } ∷ record { score = Gap; tail = High } ∷ []))) (draw (replicate 32 0)) 0
        ≡ record { id = 0; moved = 3; values = pos 4 ∷ pos 8 ∷ pos 0 ∷ pos 0 ∷ []; bins = empty_histogram } }
{}

/// Shows the whole report of one thread on a graph of two units, where no move is legal.
pub fn report_on_two_units()
    ensures { report (job_of_two (run_of 500 1 3 2 8 (record { score = Gap; tail = Low } ∷ [])))
        (sequence (job_of_two (run_of 500 1 3 2 8 (record { score = Gap; tail = Low } ∷ []))) (draw (replicate 32 0))) [] None ≡
        codes "district-audit 1" ++ 10 ∷ codes "key 0000000000000000000000000000000000000000000000000000000000000000" ++ 10 ∷
        codes "units 2 edges 1 districts 2" ++ 10 ∷ codes "population 2 slack 500 low 1 high 1" ++ 10 ∷
        codes "walks 1 steps 3 ends 2 hub-steps 8" ++ 10 ∷
        codes "walk 0 moved 0 gap low start 0/4 count 4 of 4 bound 1.414213563" ++ 10 ∷
        codes "ends gap low start 0/4 rank 3 of 3 p 1.000000000" ++ 10 ∷
        codes "end" ++ 10 ∷ [] }
{}

/// Shows more refused texts of graphs.
pub fn more_refused_graphs()
    ensures fraction { reading (codes "{\"nodes\":[{\"pop\":1,\"a\":1,\"b\":1,\"d\":1,\"id\":0},{\"pop\":12.0,\"a\":1,\"b\":1,\"d\":2,\"id\":1}],\"adjacency\":[[],[]]}") columns ≡ Err (fault.BadNumber 1 column.Population) }
    ensures not_a_number { reading (codes "{\"nodes\":[NaN],\"adjacency\":[[]]}") columns ≡ Err fault.NotJson }
    ensures same_id { reading (codes "{\"nodes\":[{\"id\":1},{\"id\":\"1\"},{\"id\":1}],\"adjacency\":[[],[],[]]}") columns ≡ Err (fault.SameId 0 2) }
    ensures unknown { reading (codes "{\"nodes\":[{\"id\":1},{\"id\":\"1\"}],\"adjacency\":[[{\"id\":\"1\"}],[{\"id\":2}]]}") columns ≡ Err (fault.UnknownNeighbour 1 0) }
    ensures missing { reading (codes "{\"nodes\":[{\"pop\":1,\"a\":1,\"d\":1,\"id\":0}],\"adjacency\":[[]]}") columns ≡ Err (fault.Missing 0 column.Second) }
    ensures root { reading (codes "[]") columns ≡ Err (fault.BadShape part.Root) }
    ensures flag { reading (codes "{\"nodes\":[],\"adjacency\":[],\"multigraph\":null}") columns ≡ Err (fault.BadShape part.Multigraph) }
    ensures lengths { reading (codes "{\"nodes\":[],\"adjacency\":[[]]}") columns ≡ Err (fault.LengthsDiffer 0 1) }
    ensures brackets { reading (replicate 200 91) columns ≡ Err fault.NotJson }
{}
