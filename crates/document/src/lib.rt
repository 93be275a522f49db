// Document 01 as definitions: all of it stands in specs/, in the document's order, and there is no
// code here but one function, since a crate has one. The folder is the one to open beside the document.
#![tactic(auto)]

ghost use Rattle.std.specs.Prelude.{◌≡◌};
ghost use Rattle.document.specs.Tables.{table_size};

// The bytes of a table.
pub fn table_size() -> usize
    ensures { result ≡ table_size }
{
    13344
}
