// A meet's two patterns as tables.
ghost use Rattle.std.specs.Prelude.{◌≡◌};
ghost use Rattle.table.specs.Content.{content};
ghost use Rattle.table.specs.Kinds.{byte_number};

use table::Table;

// Both patterns as byte tables.
#[derive(Drop)]
pub(crate) struct Tables {
    pub(crate) line: Table,
    pub(crate) club: Table,
    ghost line_bytes: { (content line).kind ≡ byte_number },
    ghost club_bytes: { (content club).kind ≡ byte_number },
}
