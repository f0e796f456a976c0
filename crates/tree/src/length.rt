// How long the path of a block is.
ghost use Rattle.std.specs.Prelude.{◌≡◌, ◌≤◌};
ghost use Rattle.tree.specs.Tree.{Split, path_length};

// The largest power of two below `count`.
pub(crate) fn split_point(count: usize) -> usize
    requires { 2 ≤ count }
    ensures { Split result count }
{
    1 << (count - 1).ilog2()
}

// The number of digests in the path of block `number` of `count`. A pair of the two would be made at each call, and taken apart at once.
pub fn path_length(number: usize, count: usize) -> usize
    ensures { result ≡ path_length number count }
{
    if count < 2 {
        return 0;
    }
    let k = split_point(count);
    if number < k {
        path_length(number, k) + 1
    } else {
        path_length(number - k, count - k) + 1
    }
}
