// What a table of rows holds: definitions and laws that tables of tags and paths of drawings share, and how a row is written.
#![tactic(auto)]

ghost use Rattle.std.specs.Prelude.{◌≡◌, [], ◌∷◌};
ghost use Rattle.rows.specs.Rows.{laid_rows};

// Writes a row at the front of a table, where there is room for it.
#[tactic(auto, unfolding(crate::specs::Rows::laid_rows))]
pub fn put<const N: usize>(table: &mut [u32], row: [u32; N])
    ensures { table.new ≡ laid_rows N (λ r. r) table.old (row.entry ∷ []) }
{
    if N <= table.len() {
        table[..N].copy_from_slice(&row);
    }
}
