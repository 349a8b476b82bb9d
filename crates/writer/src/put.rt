// Bytes and names in a lent slice. Each function puts what it is told at index `at` and answers the index after it; what is past the slice's end is left
// out, and counted all the same.
ghost use Rattle.std.specs.Prelude.{[], ◌∷◌, ◌+◌, ◌≤◌, ◌<◌, length};
ghost use Rattle.text.specs.Written.{node_name};
ghost use Rattle.writer.specs.Putting.{longest_text, Put, binder_text};

// Bytes and index are two parameters: behind a `&mut` to a struct of them the bytes lent at first could be exchanged for others, and each contract would have to say that they were not.
pub(crate) fn put_byte(out: &mut [u8], at: usize, b: u8) -> usize
    requires { at < longest_text }
    ensures { Put out.old at (b ∷ []) result out.new }
{
    // A test and an index, for a write through what `get_mut` gives is lost to the proof where the branches join.
    if at < out.len() {
        out[at] = b;
    }
    at + 1
}

// Document 02, change 3: "v and its node number".
pub(crate) fn put_name(out: &mut [u8], at: usize, node: u32) -> usize
    requires { at + length (node_name node) ≤ longest_text }
    ensures { Put out.old at (node_name node) result out.new }
{
    let digits = put_byte(out, at, b'v');
    digits + decimal::put(out, digits, node)
}

// A binder before its body.
pub(crate) fn put_binder(out: &mut [u8], at: usize, node: u32) -> usize
    requires { at + length (binder_text node) ≤ longest_text }
    ensures { Put out.old at (binder_text node) result out.new }
{
    let name = put_byte(out, at, b'\\');
    let dot = put_name(out, name, node);
    put_byte(out, dot, b'.')
}
