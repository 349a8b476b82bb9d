// The columns of a closed term, from its preorder code.
ghost use Rattle.std.specs.Prelude.{◌≡◌, ◌*◌, ◌≤◌, ◌<◌, length};
ghost use Rattle.term.specs.Term.{Term};
ghost use Rattle.term.specs.Table.{row};
ghost use Rattle.reader.specs.Layout.{columns_put, each_alone, Layable, ColumnsLaid, Whole, TableLaid};

// The words of a node.
#[derive(Clone, Copy)]
struct Node {
    kind: u16,
    left: u16,
    right: u16,
    parent: u16,
    level: u16,
}

// Puts the node that comes after `laid` others, each word in its column. Document 02, change 8: "five columns of n words, 16 bits wide, one behind
// the other in one slice, in the order kind, left, right, parent, level".
fn put_node(table: &mut [u16], n: usize, laid: u16, node: Node)
    requires { (n ≤ 3000) × (laid < n) × (5 * n ≤ length table.old) }
    ensures { table.new ≡ columns_put n table.old laid (each_alone (row node.kind node.left node.right node.parent node.level)) }
{
    let at = laid as usize;
    table[at] = node.kind;
    table[n + at] = node.left;
    table[2 * n + at] = node.right;
    table[3 * n + at] = node.parent;
    table[4 * n + at] = node.level;
}

// Lays out the part whose code stands after `laid` words, and answers how many of the code's nodes are laid out then. The scope holds the nodes of the
// `depth` binders around the part, the innermost last. Document 01, "The term table": a node's parts follow it, the left one first, and
// only an application's argument is a level higher. The words of the code and the kinds are numbers, as the definitions `code_of` and `row` write them; scope and depth are two
// parameters for the reason that `grammar` gives.
fn columns(
    code: &[u32],
    laid: u16,
    parent: u16,
    level: u16,
    scope: &mut [u16],
    depth: usize,
    table: &mut [u16],
) -> u16
    requires { (level ≤ laid) × ((t : Term) × Layable code.now (length code.now) laid depth (length scope.old) (length table.old) t) }
    ensures { ColumnsLaid code.now (length code.now) laid parent level depth scope.old table.old result
        scope.new table.new }
{
    let n = code.len();
    let node = laid + 1;
    match code[laid as usize] {
        1 => {
            let abstraction = Node {
                kind: 2,
                left: node + 1,
                right: 0,
                parent,
                level,
            };
            put_node(table, n, laid, abstraction);
            scope[depth] = node;
            columns(code, node, node, level, scope, depth + 1, table)
        }
        2 => {
            let inner = level + 1;
            let next = columns(code, node, node, level, scope, depth, table);
            let end = columns(code, next, node, inner, scope, depth, table);
            let application = Node {
                kind: 3,
                left: node + 1,
                right: next + 1,
                parent,
                level,
            };
            put_node(table, n, laid, application);
            end
        }
        word => {
            let binder = scope[depth + 2 - (word as usize)];
            let variable = Node {
                kind: 1,
                left: binder,
                right: 0,
                parent,
                level,
            };
            put_node(table, n, laid, variable);
            node
        }
    }
}

// The table of the closed term whose code these words are. Words after its columns keep their values.
pub(crate) fn lay_out(code: &[u32], table: &mut [u16])
    requires { (t : Term) × Whole code.now (length code.now) (length table.old) t }
    ensures { TableLaid code.now (length code.now) table.old table.new }
{
    let mut scope = [0u16; 3000];
    columns(code, 0, 0, 0, &mut scope, 0, table);
}
