//! The position of the start plan in the run.

ghost use Rattle.std.specs.Prelude.{◌≡◌, ◌<◌};
ghost use Rattle.audit_model.specs.Serially.{serial_place};
ghost use Rattle.serial_test.specs.Places.{ArePlaces, DividesDraws};

/// Maps a 64-bit draw to one of `of` positions, counted from 0.
///
/// `of` is a power of two, so equally many draws give each position. The uniformity of draws is not
/// proved.
pub fn place(draw: u64, of: u64) -> u32
    requires { ArePlaces of }
    ensures place { result ≡ serial_place draw of }
    ensures within { result < of }
    ensures even { DividesDraws of }
{
    (draw % of) as u32
}
