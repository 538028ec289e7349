//! Tables by the numbers of nodes.

ghost use Rattle.std.specs.Prelude.{◌≡◌, slice_set};

/// The node has this value; in a table without a place for it, nothing changes.
pub fn set<T: Copy>(table: &mut [T], node: u32, value: T)
    ensures { table.new ≡ slice_set table.old node value }
{
    let place = node as usize;
    if place >= table.len() {
        return;
    }
    table[place] = value;
}
