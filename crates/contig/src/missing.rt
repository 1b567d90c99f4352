//! The missing faces of a district with one more unit.

ghost use Rattle.std.specs.Prelude.{◌≡◌, ◌≢◌, ◌<◌, ◌≤◌, length, slice_index, slice_set, count_by, All};
ghost use Rattle.audit_model.specs.Below.{count_below};
ghost use Rattle.audit_model.specs.District.{in_district};
ghost use Rattle.contig.specs.Corners.{is_filled, corners_at};
ghost use Rattle.contig.specs.Counts.{missing_faces};
ghost use Rattle.contig.specs.Faces.{AreFaces, own_rings};
ghost use Rattle.contig.specs.Order.{IsOnGraph, is_joined};

use crate::counts::{mates_in, scan_corners, spares_in, with_one};
use crate::sector::Sector;
use crate::table::FaceTable;
use dual_graph::member::Member;

/// Returns the number of missing faces of a district with a unit of another district. `missing` is
/// their number without the unit, and is not 0.
///
/// It costs one pass over the neighbors of the unit, and one over the faces at it.
#[inline]
pub fn missing_with(joining: Member, table: &FaceTable, district: u32, missing: u64) -> u64
    requires made { table.now.graph ≡ joining.graph.now }
    requires elsewhere { slice_index joining.plan.now joining.unit ≢ district }
    requires some { 0 < missing }
    requires missing { missing ≡ missing_faces joining.graph.now table.now.faces (in_district joining.plan.now district) }
    ensures { result ≡ missing_faces joining.entry.graph.now table.now.faces (in_district (slice_set joining.entry.plan.now joining.entry.unit district) district) }
{
    let end = joining.graph.units();
    let mates = mates_in(joining, district, end);
    let corners = corners_with(joining, table, district);
    let (starting, ending) = spares_in(joining, table, district, end);
    (missing + mates + ending).saturating_sub(1 + corners + starting)
}

/// Counts the faces at a unit whose other units are all in a district.
#[inline]
fn corners_with(joining: Member, table: &FaceTable, district: u32) -> u64
    requires { table.now.graph ≡ joining.graph.now }
    ensures count { result ≡ count_by (is_filled (in_district joining.entry.plan.now district)) (corners_at joining.entry.unit (own_rings table.now.faces)) }
    ensures faces { AreFaces table.now.graph table.now.faces }
    ensures few { length table.now.faces ≤ 4000000 }
{
    let sectors = table.sectors_at(joining.unit);
    if sectors.is_empty() {
        return scan_corners(joining, table, district, district).0;
    }
    count_joined_in(joining, sectors, district)
}

/// Counts the sectors whose face and neighbors are all in a district. The loop has no branch that
/// depends on the plan.
#[inline]
fn count_joined_in(joining: Member, sectors: &[Sector], district: u32) -> u64
    requires some { 0 < length sectors.now }
    requires within { All (IsOnGraph joining.graph.now) sectors.now }
    ensures { result ≡ count_below (length sectors.now) (is_joined (in_district joining.entry.plan.now district) sectors.now) }
{
    let plan = joining.plan;
    let last = sectors[sectors.len() - 1];
    let mut before = plan[last.near as usize] == district;
    let mut count = 0;
    for sector in sectors {
        let here = plan[sector.near as usize] == district;
        let whole = sector.faced & here & before & (plan[sector.far as usize] == district);
        count = with_one(count, whole);
        before = here;
    }
    count
}
