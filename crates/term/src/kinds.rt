// The three kinds of node.
ghost use Rattle.std.specs.Prelude.{◌≡◌};
ghost use Rattle.term.specs.Table.{table_in, kind_of, kind_at};
ghost use Rattle.term.specs.Kinds.{kind_meant};

// Document 01, "The term table": "kind: 1 variable, 2 abstraction, 3 application".
#[derive(Clone, Copy, Debug, PartialEq, Eq)]
pub enum Kind {
    Variable,
    Abstraction,
    Application,
}

// The kind that a word says, if it says one.
fn kind_said(word: u32) -> Option<Kind>
    ensures { kind_meant result ≡ kind_of word }
{
    match word {
        1 => Some(Kind::Variable),
        2 => Some(Kind::Abstraction),
        3 => Some(Kind::Application),
        _ => None,
    }
}

// The kind of a node, if its word says one.
pub fn kind_of(table: &[u16], n: u32, node: u32) -> Option<Kind>
    ensures { kind_meant result ≡ kind_at (table_in table.now n) node }
{
    kind_said(crate::kind(table, n, node))
}
