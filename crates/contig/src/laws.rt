//! Laws of faces. Each law is the contract of a function with an empty body.

ghost use Rattle.std.specs.Prelude.{◌≡◌, ◌≢◌, ◌&&◌, ◌==◌, ◌+◌, ◌<◌, ◌≤◌, ℕ, Bool, not, List, length, IsTrue, IsFalse, slice_index};
ghost use Rattle.audit_model.specs.Apart.{AllApart};
ghost use Rattle.audit_model.specs.Graph.{Graph, adjacent, IsIn};
ghost use Rattle.audit_model.specs.Local.{IsSimple, is_mate, MayLeave};
ghost use Rattle.audit_model.specs.Path.{HasPath, IsConnected};
ghost use Rattle.audit_model.specs.District.{in_district};
ghost use Rattle.contig.specs.Counts.{missing_faces};
ghost use Rattle.contig.specs.Cycles.{next_place};
ghost use Rattle.contig.specs.Faces.{is_pair, has_side, SparedFace, IsCycle, AreFaces, AreRings, AreCycles, AreClear, AreLinked, AreLinkedBy, share_face, chosen, own_rings, count_active, IsClassing, count_units, count_inner_edges, count_inner_faces, without_unit, count_mates, count_inner_faces_at};

/// Shows when a connected set without holes falls apart without one of its units.
///
/// `class` gives a class to each unit. Two neighbors of the removed unit must have the same class
/// if a link joins them. If two neighbors in the set have different classes, each path between them
/// in the set visits the removed unit.
pub fn classes_part_mates()
    ensures { (g : Graph) (faces : List (List ℕ)) (inside : ℕ → Bool) (u x y : ℕ) (class : ℕ → ℕ) →
        IsSimple g → AreCycles g faces → IsConnected g inside → IsIn g inside u →
        count_inner_edges g inside + 1 ≤ count_units g inside + count_inner_faces inside faces →
        IsClassing faces inside u class →
        IsIn g inside x → IsTrue (adjacent g u x) → IsIn g inside y → IsTrue (adjacent g u y) → class x ≢ class y →
        HasPath g (λ v. inside v && not (v == u)) x y → ⊥ }
{}

/// Shows that a unit may not leave a connected district without holes if two of its mates have
/// different classes. The classes are those of `classes_part_mates`.
pub fn parting_units_may_not_leave()
    ensures { (g : Graph) (faces : List (List ℕ)) (plan : List ℕ) (u x y : ℕ) (class : ℕ → ℕ) →
        IsSimple g → AreCycles g faces → u < g.units → IsConnected g (in_district plan (slice_index plan u)) →
        count_inner_edges g (in_district plan (slice_index plan u)) + 1
        ≤ count_units g (in_district plan (slice_index plan u)) + count_inner_faces (in_district plan (slice_index plan u)) faces →
        IsClassing faces (in_district plan (slice_index plan u)) u class →
        IsIn g (is_mate g plan u) x → IsIn g (is_mate g plan u) y → class x ≢ class y → MayLeave g plan u → ⊥ }
{}

/// Shows how the numbers of units, inner edges and inner faces of a set change when one unit is
/// taken out.
pub fn counts_with_a_unit()
    ensures units { (g : Graph) (inside : ℕ → Bool) (u : ℕ) → IsIn g inside u →
        count_units g inside ≡ count_units g (without_unit inside u) + 1 }
    ensures edges { (g : Graph) (inside : ℕ → Bool) (u : ℕ) → IsSimple g → IsIn g inside u →
        count_inner_edges g inside ≡ count_inner_edges g (without_unit inside u) + count_mates g inside u }
    ensures faces { (inside : ℕ → Bool) (u : ℕ) (faces : List (List ℕ)) →
        count_inner_faces inside faces ≡ count_inner_faces (without_unit inside u) faces + count_inner_faces_at u inside faces }
{}

/// Shows that a unit may leave a connected district if its mates are linked. If the district has no
/// hole, a unit whose mates are not linked may not leave. This second part holds for cycles of any
/// length.
pub fn linked_units_may_leave()
    ensures linked { (g : Graph) (faces : List (List ℕ)) (plan : List ℕ) (u : ℕ) →
        IsSimple g → AreRings g faces → IsConnected g (in_district plan (slice_index plan u)) → AreLinkedBy g faces plan u → MayLeave g plan u }
    ensures unlinked { (g : Graph) (faces : List (List ℕ)) (plan : List ℕ) (u : ℕ) →
        IsSimple g → AreCycles g faces → u < g.units → IsConnected g (in_district plan (slice_index plan u)) →
        count_inner_edges g (in_district plan (slice_index plan u)) + 1
        ≤ count_units g (in_district plan (slice_index plan u)) + count_inner_faces (in_district plan (slice_index plan u)) faces →
        MayLeave g plan u → AreLinkedBy g faces plan u }
{}

/// Shows that the rings that count for a set are rings that own their sides, and that each active
/// spare is one more inner face. So the other laws speak of faces with spares, too.
pub fn spares_count_as_faces()
    ensures rings { (g : Graph) (inside : ℕ → Bool) (faces : List SparedFace) → AreFaces g faces → AreRings g (chosen inside faces) }
    ensures count { (inside : ℕ → Bool) (faces : List SparedFace) →
        count_inner_faces inside (chosen inside faces) ≡ count_inner_faces inside (own_rings faces) + count_active inside faces }
{}

/// Shows that a unit may not leave a connected district if its mates are not linked and long faces
/// close each hole of the district.
///
/// A long face is a cycle of any length. It closes a hole if all its units are in the district, so
/// there must be at least as many of these as the district has missing faces. None of them may have
/// a side at the unit, so that the faces alone link its mates.
pub fn cycles_close_districts()
    ensures { (g : Graph) (faces : List SparedFace) (long : List (List ℕ)) (plan : List ℕ) (u : ℕ) →
        IsSimple g → AreFaces g faces → AreClear faces long → AreCycles g long → u < g.units →
        IsConnected g (in_district plan (slice_index plan u)) →
        missing_faces g faces (in_district plan (slice_index plan u)) ≤ count_inner_faces (in_district plan (slice_index plan u)) long →
        ((x y : ℕ) → IsFalse (share_face long (in_district plan (slice_index plan u)) u x y)) →
        (AreLinked g faces plan u → ⊥) → MayLeave g plan u → ⊥ }
{}

/// Shows that each side of a cycle joins the units at a position and the next. The position after
/// the last is the first. Three or more distinct units, each adjacent to the one at the next
/// position, are a cycle.
pub fn cycles_have_places()
    ensures sides { (ring : List ℕ) (x y : ℕ) → IsTrue (has_side ring x y) →
        (i : ℕ) × (i < length ring) × IsTrue (is_pair (slice_index ring i) (slice_index ring (next_place (length ring) i)) x y) }
    ensures cycle { (g : Graph) (ring : List ℕ) → 3 ≤ length ring → AllApart ring →
        ((i : ℕ) → i < length ring → slice_index ring i < g.units) →
        ((i : ℕ) → i < length ring → IsTrue (adjacent g (slice_index ring i) (slice_index ring (next_place (length ring) i)))) →
        ((v w : ℕ) → adjacent g v w ≡ adjacent g w v) → IsCycle g ring }
    ensures apart { (ring : List ℕ) →
        ((i j : ℕ) → i < j → j < length ring → slice_index ring i ≢ slice_index ring j) → AllApart ring }
{}
