//! Tables of names.
ghost use Rattle.std.specs.Prelude.{◌≡◌};
ghost use Rattle.std.specs.Map.{lookup};
ghost use Rattle.std.specs.Str.{bytes_eq};
ghost use Rattle.line_text.specs.Table.{rows_seen};

/// A name, and what it means.
#[derive(Clone, Copy)]
pub struct TableRow<T: Copy> {
    /// The name.
    pub name: &'static [u8],
    /// What it means.
    pub meaning: T,
}

/// The rows of a table, each as `name => meaning`.
#[macro_export]
macro_rules! table_rows {
    ($($name:literal => $meaning:expr),* $(,)?) => {
        [$($crate::TableRow { name: $name, meaning: $meaning }),*]
    };
}

/// What a name means, by the first row that has it.
#[tactic(auto, using(crate::proofs::TableLemmas::said_at))]
pub fn find<T: Copy>(rows: &[TableRow<T>], name: &[u8]) -> Option<T>
    ensures { result ≡ lookup (bytes_eq name.now) (rows_seen rows.now) }
{
    for row in rows {
        if name == row.name {
            return Some(row.meaning);
        }
    }
    None
}
