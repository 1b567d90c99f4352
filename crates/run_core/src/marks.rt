//! Marks of ids, one Boolean for each.

ghost use Rattle.std.specs.Prelude.{◌≡◌, ℕ, ◌<◌, ◌≤◌, ◌||◌, false, not, length, All, vec_capacity};
ghost use Rattle.std.specs.List.{slice_index_or};
ghost use Rattle.audit_model.specs.Below.{filter_below};
ghost use Rattle.audit_model.specs.Graph.{has};
ghost use Rattle.audit_model.specs.Limits.{most_trajectories};

// Marks these ids.
pub(crate) fn mark(marks: &mut [bool], ids: &[u32])
    requires { All (λ id. id < length marks.old) ids.now }
    ensures width { length marks.new ≡ length marks.old }
    ensures marked { (id : ℕ) → id < length marks.old → slice_index_or marks.new id false ≡ (slice_index_or marks.old id false || has ids.now id) }
{
    for &id in ids {
        marks[id as usize] = true;
    }
}

// Lists the ids without a mark, in rising order.
pub(crate) fn list_unmarked(ids: &mut Vec<u32>, marks: &[bool])
    requires small { length marks.now ≤ most_trajectories }
    requires room { length marks.now ≤ vec_capacity ids.old }
    ensures ids { ids.new.items ≡ filter_below (length marks.now) (λ id. not (slice_index_or marks.now id false)) }
    ensures room { vec_capacity ids.new ≡ vec_capacity ids.old }
{
    ids.clear();
    for id in 0..marks.len() {
        if !marks[id] {
            ids.push_reserved(id as u32);
        }
    }
}
