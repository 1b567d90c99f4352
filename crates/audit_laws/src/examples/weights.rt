//! Examples of a weight on cut edges, computed by the definitions.

ghost use Rattle.std.specs.Prelude.{◌≡◌, [], ◌∷◌};
ghost use Rattle.audit_model.specs.Step.{next};
ghost use Rattle.audit_model.specs.Weight.{factor, factors, largest_change};
ghost use Rattle.audit_laws.specs.Jobs.{weighted_job};

/// Shows that four factors in a row add up to the weight, here 133 and 134 of 256, and that the first ones are larger.
pub fn small_factors()
    ensures one { factor 133 0 ∷ factor 133 1 ∷ factor 133 2 ∷ factor 133 3 ∷ [] ≡ 34 ∷ 33 ∷ 33 ∷ 33 ∷ [] }
    ensures two { factor 134 4 ∷ factor 134 5 ∷ factor 134 6 ∷ factor 134 7 ∷ [] ≡ 34 ∷ 34 ∷ 33 ∷ 33 ∷ [] }
    ensures product { factors 134 1 3 ≡ 37026 }
{}

/// Shows the largest change: with 8 pairs nine digits fit, since 8 * 64^10 = 2^63, and with 17 pairs eight.
pub fn small_largest_changes()
    ensures few { largest_change 8 ≡ 9 }
    ensures more { largest_change 17 ≡ 8 }
    ensures most { largest_change 20000000 ≡ 5 }
{}

/// Shows steps with a weight of 134 of 256, in a triangle of the units 0, 1 and 2 with a tail, the unit 3. In the plan
/// with the tail alone, one edge is cut. The step that puts unit 2 to the tail cuts another edge, whose factor is 34.
/// Of the draws that propose the step, those whose quotient has a last digit below 34 take it. Each draw takes the step
/// back.
pub fn steps_with_a_weight()
    ensures taken { next (weighted_job 134) (0 ∷ 0 ∷ 0 ∷ 1 ∷ []) 269 ≡ 0 ∷ 0 ∷ 1 ∷ 1 ∷ [] }
    ensures refused { next (weighted_job 134) (0 ∷ 0 ∷ 0 ∷ 1 ∷ []) 277 ≡ 0 ∷ 0 ∷ 0 ∷ 1 ∷ [] }
    ensures even { next (weighted_job 256) (0 ∷ 0 ∷ 0 ∷ 1 ∷ []) 277 ≡ 0 ∷ 0 ∷ 1 ∷ 1 ∷ [] }
    ensures back { next (weighted_job 134) (0 ∷ 0 ∷ 1 ∷ 1 ∷ []) 508 ≡ 0 ∷ 0 ∷ 0 ∷ 1 ∷ [] }
{}
