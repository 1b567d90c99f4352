//! A partition of numbered items into classes: an array with the class number of each item.

ghost use Rattle.std.specs.Prelude.{◌<◌, length};
ghost use Rattle.audit_model.specs.Replaced.{Replaced};

/// Merges two classes: the items in the class of `from` join the class of `into`.
#[inline]
pub fn join(classes: &mut [u8], from: usize, into: usize)
    requires from { from < length classes.old }
    requires into { into < length classes.old }
    ensures { Replaced classes.old classes.new from into }
{
    let old = classes[from];
    let new = classes[into];
    for class in classes.iter_mut() {
        let before = *class;
        *class = if before == old { new } else { before };
    }
}
