//! Computed examples of histograms, of tests that stop early and of the serial test.

ghost use Rattle.std.specs.Prelude.{◌≡◌, ◌%◌, [], ◌∷◌, ◌++◌, codes, replicate, Some, None, Ok, Err, true, pos, negsuc};
ghost use Rattle.audit_model.specs.declared.fault.Name.TheVariants as name;
ghost use Rattle.audit_model.specs.declared.fault.WordFault.TheVariants as word;
ghost use Rattle.audit_model.specs.declared.setting.Score.TheVariants.{Seats, Gap, MeanMedian};
ghost use Rattle.audit_model.specs.declared.setting.Tail.TheVariants.{Low, High};
ghost use Rattle.audit_model.specs.Run.{fits};
ghost use Rattle.audit_model.specs.Serially.{serial_of, serial_place};
ghost use Rattle.audit_model.specs.Stopping.{stop_of_known, stop};
ghost use Rattle.audit_model.specs.Trajectory.{bin_of, empty_histogram, outcome, tally};
ghost use Rattle.audit_statement.specs.Draw.{draw};
ghost use Rattle.audit_statement.specs.Report.{thread_report};
ghost use Rattle.audit_statement.specs.Words.{setting_of};
ghost use Rattle.audit_laws.specs.Jobs.{run_of, cycle_of_four, job_of_four, job_of_three, job_of_three_districts, job_of_two, first_draws_alone, found_once};
ghost use Rattle.audit_laws.specs.Lines.{run_words};
ghost use Rattle.audit_laws.specs.Texts.{columns};

/// Shows the histogram bin of a plan, by its seats and those of the start plan, and the sums of two histograms.
pub fn small_histograms()
    ensures same { bin_of 3 3 ≡ 4 }
    ensures fewer { bin_of 2 3 ≡ 3 }
    ensures far_fewer { bin_of 0 9 ≡ 0 }
    ensures far_more { bin_of 9 0 ≡ 8 }
    ensures sums { tally (record found_once { bins = 0 ∷ 0 ∷ 0 ∷ 7 ∷ 2 ∷ 0 ∷ 0 ∷ 0 ∷ 0 ∷ [] } ∷ record found_once { bins = 0 ∷ 0 ∷ 0 ∷ 0 ∷ 4 ∷ 5 ∷ 0 ∷ 0 ∷ 0 ∷ [] } ∷ []) ≡
        0 ∷ 0 ∷ 0 ∷ 7 ∷ 6 ∷ 5 ∷ 0 ∷ 0 ∷ 0 ∷ [] }
{}

/// Shows the histograms of trajectories.
pub fn seats_in_histogram()
    ensures three { outcome (job_of_three (record (run_of 5000 1 8 0 1000 (record { score = Seats; tail = High } ∷ [])) { shift = true })) first_draws_alone 0
        ≡ record { id = 0; moved = 1; values = pos 2 ∷ pos 0 ∷ pos 0 ∷ pos 0 ∷ []; bins = 0 ∷ 0 ∷ 0 ∷ 7 ∷ 2 ∷ 0 ∷ 0 ∷ 0 ∷ 0 ∷ [] } }
    ensures districts { outcome (job_of_three_districts (record (run_of 5000 1 8 0 1000 (record { score = MeanMedian; tail = High } ∷ [])) { shift = true })) first_draws_alone 0
        ≡ record { id = 0; moved = 1; values = pos 4 ∷ pos 0 ∷ pos 0 ∷ pos 0 ∷ []; bins = 0 ∷ 0 ∷ 0 ∷ 0 ∷ 4 ∷ 5 ∷ 0 ∷ 0 ∷ 0 ∷ [] } }
    ensures cycle { outcome (job_of_four cycle_of_four (record (run_of 5000 1 8 0 1000 (record { score = Gap; tail = Low } ∷ [])) { shift = true })) first_draws_alone 0
        ≡ record { id = 0; moved = 3; values = pos 4 ∷ pos 0 ∷ pos 0 ∷ pos 0 ∷ []; bins = 0 ∷ 0 ∷ 0 ∷ 0 ∷ 9 ∷ 0 ∷ 0 ∷ 0 ∷ 0 ∷ [] } }
{}

/// Shows plausible histograms: all zeros, or counts that add up to the number of visits.
pub fn fitting_histograms()
    ensures none { fits (job_of_four cycle_of_four (run_of 5000 1 8 0 1000 (record { score = Gap; tail = Low } ∷ record { score = Gap; tail = High } ∷ []))) found_once ≡ true }
    ensures all { fits (job_of_four cycle_of_four (run_of 5000 1 8 0 1000 (record { score = Gap; tail = Low } ∷ record { score = Gap; tail = High } ∷ []))) (record found_once { bins = 0 ∷ 0 ∷ 0 ∷ 4 ∷ 5 ∷ 0 ∷ 0 ∷ 0 ∷ 0 ∷ [] }) ≡ true }
{}

/// Shows the stopping places of tests that need one, two or four of five endpoints in the tail. Then shows a test
/// decided by known outcomes, and one that a missing endpoint leaves open.
pub fn small_stops()
    ensures one { stop Low (negsuc 0) (negsuc 6 ∷ pos 5 ∷ negsuc 0 ∷ pos 5 ∷ negsuc 6 ∷ []) 1 ≡ record { place = 1; top = 1; of = 1 } }
    ensures two { stop Low (negsuc 0) (negsuc 6 ∷ pos 5 ∷ negsuc 0 ∷ pos 5 ∷ negsuc 6 ∷ []) 2 ≡ record { place = 3; top = 2; of = 3 } }
    ensures four { stop Low (negsuc 0) (negsuc 6 ∷ pos 5 ∷ negsuc 0 ∷ pos 5 ∷ negsuc 6 ∷ []) 4 ≡ record { place = 5; top = 4; of = 6 } }
    ensures stop_of_known { stop_of_known (job_of_four cycle_of_four (run_of 5000 0 8 2 1000 [])) (0, record { score = Gap; tail = Low }) 2
        (record found_once { id = 1; values = negsuc 6 ∷ [] } ∷ record found_once { id = 0; values = negsuc 0 ∷ [] } ∷ []) ≡ Some (record { place = 2; top = 2; of = 2 }) }
    ensures missing { stop_of_known (job_of_four cycle_of_four (run_of 5000 0 8 3 1000 [])) (0, record { score = Gap; tail = Low }) 2
        (record found_once { id = 2; values = negsuc 6 ∷ [] } ∷ record found_once { id = 0; values = negsuc 0 ∷ [] } ∷ []) ≡ None }
{}

/// Shows the position of the start plan in the run of the serial test.
pub fn small_places()
    ensures four { serial_place 0x903df1a0ade0b876 4 ≡ 2 }
    ensures many { serial_place 0x903df1a0ade0b876 1024 ≡ 118 }
    ensures first { draw (replicate 32 0) 8589934592 0 % 4 ≡ 0 }
{}

/// Shows arguments that request the serial test. The test is refused unless its run has a power of two of plans. An
/// invalid number of steps is refused before the test.
pub fn words_of_the_serial_test()
    ensures default { setting_of (run_words (codes "--slack" ∷ codes "5000" ∷ codes "--steps" ∷ codes "8" ∷ codes "--ask" ∷ codes "gap:low" ∷ codes "--serial" ∷ codes "no" ∷ [])) ≡
        Ok (record (run_of 5000 1 8 0 1000 (record { score = Gap; tail = Low } ∷ [])) { columns = columns }) }
    ensures asked { setting_of (run_words (codes "--slack" ∷ codes "5000" ∷ codes "--serial" ∷ codes "yes" ∷ codes "--steps" ∷ codes "7" ∷ codes "--ask" ∷ codes "gap:low" ∷ [])) ≡
        Ok (record (run_of 5000 1 7 0 1000 (record { score = Gap; tail = Low } ∷ [])) { columns = columns; serial = true }) }
    ensures nine_plans { setting_of (run_words (codes "--slack" ∷ codes "5000" ∷ codes "--steps" ∷ codes "8" ∷ codes "--ask" ∷ codes "gap:low,gap:high" ∷ codes "--serial" ∷ codes "yes" ∷ [])) ≡
        Err (word.BadValue name.Serial) }
    ensures by_default { setting_of (run_words (codes "--ask" ∷ codes "gap:low" ∷ codes "--serial" ∷ codes "yes" ∷ [])) ≡ Err (word.BadValue name.Serial) }
    ensures neither { setting_of (run_words (codes "--steps" ∷ codes "7" ∷ codes "--ask" ∷ codes "gap:low" ∷ codes "--serial" ∷ codes "maybe" ∷ [])) ≡ Err (word.BadValue name.Serial) }
    ensures unread_steps { setting_of (run_words (codes "--steps" ∷ codes "08" ∷ codes "--ask" ∷ codes "gap:low" ∷ codes "--serial" ∷ codes "yes" ∷ [])) ≡ Err (word.BadValue name.Steps) }
{}

/// Shows the result of the serial test on a graph of two units, where no move is legal.
pub fn serial_test_on_two_units()
    ensures { serial_of (job_of_two (run_of 500 1 3 0 8 (record { score = Gap; tail = Low } ∷ []))) (draw (replicate 32 0)) ≡
        record { place = 0; moved = 0; ranks = 4 ∷ 0 ∷ 0 ∷ 0 ∷ [] } }
{}

/// Shows the whole report of one thread on two units, with an early stop and the serial test.
pub fn report_with_all_tests()
    ensures { thread_report (job_of_two (record (run_of 500 1 3 5 8 (record { score = Gap; tail = Low } ∷ [])) { shift = true; stop = 2; serial = true })) (draw (replicate 32 0)) ≡
        codes "district-audit 2" ++ 10 ∷ codes "key 0000000000000000000000000000000000000000000000000000000000000000" ++ 10 ∷
        codes "units 2 edges 1 districts 2" ++ 10 ∷ codes "population 2 slack 500 low 1 high 1" ++ 10 ∷
        codes "walks 1 steps 3 ends 5 hub-steps 8" ++ 10 ∷
        codes "stop 2" ++ 10 ∷
        codes "walk 0 moved 0 gap low start 0/4 count 4 of 4 bound 1.414213563" ++ 10 ∷
        codes "shift 0 0 0 0 4 0 0 0 0" ++ 10 ∷
        codes "stop gap low start 0/4 place 2 value 2/2 p 1.000000000" ++ 10 ∷
        codes "serial gap low start 0/4 place 0 rank 4 of 4 p 1.000000000" ++ 10 ∷
        codes "end" ++ 10 ∷ [] }
{}
